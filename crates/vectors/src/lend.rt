// An image lent to a read.
use script::line::bytes;
use script::show;
use std::io;
use survey::refusal::Refusal;

// Lends a read the image that the word stands for, and writes what it answers: a refusal, none, or the value as `shown` writes it.
pub fn lend<
    R: Print,
    T: Drop,
    F: Fn(&[u8]) -> Result<Option<T>, Refusal>,
    S: Fn(&R, &[u8], T) -> io::Result<()>,
>(rt: &R, word: &[u8], read: F, shown: S) -> io::Result<()>
    requires reads { F.IsAlwaysCallable read }
    requires shows { S.IsAlwaysCallable shown }
{
    let mut image = [0u8; 512];
    let image = bytes(word, &mut image);
    match read(image) {
        Err(refusal) => show::refused(rt, refusal),
        Ok(None) => show::text(rt, b" = none"),
        Ok(Some(value)) => {
            show::text(rt, b" = ")?;
            shown(rt, image, value)
        }
    }
}
