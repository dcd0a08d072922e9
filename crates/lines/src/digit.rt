// Numbers as digits.
ghost use Rattle.std.specs.Prelude.{◌≤◌, ◌<◌};
ghost use Rattle.wire.specs.Put.{Put};
ghost use Rattle.lines.specs.Digits.{digits, decimal, octal};

use wire::put::put_bytes;

// Writes the digits of `number` in `base`, at least `least` of them, and answers the place after them. By hand: the library's `Display`, with
// no heap, makes a text of its own (`InlineText`), which may be cut. By index, and not over the bytes: the text starts where the loop ends.
fn put_digits(buf: &mut [u8], at: usize, number: u64, base: u64, least: u64) -> usize
    requires { (1 < base) × (base ≤ 10) }
    ensures { Put buf.old at (digits base 22 least number) result buf.new }
{
    let mut text = [0u8; 22];
    let mut rest = number;
    let mut left = least;
    for i in (0..22).rev() {
        if rest == 0 && left == 0 {
            return put_bytes(buf, at, &text[i + 1..]);
        }
        text[i] = (rest % base + 48) as u8;
        rest /= base;
        left = left.saturating_sub(1);
    }
    put_bytes(buf, at, &text)
}

// Writes `number` in decimal.
pub fn put_decimal(buf: &mut [u8], at: usize, number: u64) -> usize
    ensures { Put buf.old at (decimal number) result buf.new }
{
    put_digits(buf, at, number, 10, 1)
}

// Writes `number` in octal, at least four digits.
pub fn put_octal(buf: &mut [u8], at: usize, number: u64) -> usize
    ensures { Put buf.old at (octal number) result buf.new }
{
    put_digits(buf, at, number, 8, 4)
}
