// Writing answers to standard output. What cannot be written is answered as an error.
use std::io;
use survey::refusal::Refusal;

pub fn text(rt: &impl Print, words: &[u8]) -> io::Result<()> {
    rt.write_all(words)
}

pub fn hex(rt: &impl Print, bytes: &[u8]) -> io::Result<()> {
    for byte in bytes {
        print!(rt; "{byte:02X}")?;
    }
    Ok(())
}

// How many bytes were read, and how the value is written.
pub fn written(rt: &impl Print, length: usize, bytes: &[u8]) -> io::Result<()> {
    print!(rt; ", {length} bytes, written ")?;
    hex(rt, bytes)
}

pub fn refused(rt: &impl Print, refusal: Refusal) -> io::Result<()> {
    refused_number(rt, refusal.number())
}

// The same of a refusal's number, whatever it is.
pub fn refused_number(rt: &impl Print, number: u32) -> io::Result<()> {
    print!(rt; " = refused {number}")
}

// Bytes as a word of the list has them.
pub fn word(rt: &impl Print, bytes: &[u8]) -> io::Result<()> {
    if bytes.is_empty() {
        text(rt, b"-")
    } else {
        hex(rt, bytes)
    }
}
