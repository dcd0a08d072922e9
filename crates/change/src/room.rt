// A new image written, if it has room.
ghost use Rattle.std.specs.Prelude.{◌≡◌};
ghost use Rattle.change.specs.Changed.{lacks_room, Writes};

use survey::refusal::Refusal;
use survey::store::MOST_BYTES;

// Whether a new image of `size` bytes is too long, for any image or for a target of `room` bytes.
pub fn lacks_room(size: usize, room: usize) -> bool
    ensures { result ≡ lacks_room size room }
{
    MOST_BYTES < size || room < size
}

// Measures the new image that is put, and writes it to the target if there is room.
pub fn write_if_room<P: Fn(&mut [u8]) -> usize>(target: &mut [u8], put: P) -> Result<usize, Refusal>
    requires { P.IsAlwaysCallable put }
    ensures { Writes (P.post put) target.old result target.new }
{
    let size = put(&mut []);
    if lacks_room(size, target.len()) {
        return Err(Refusal::NoRoom);
    }
    Ok(put(target))
}
