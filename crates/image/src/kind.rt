// The kinds of nodes, and the number and letter of each.
ghost use Rattle.std.specs.Prelude.{◌+◌, ◌≤◌, ◌≡◌, Some};
ghost use Rattle.wire.specs.Reading.{Reads, meant};
ghost use Rattle.image.specs.Meaning.{kind_number};
ghost use Rattle.image.specs.KindLayout.{kind, code};
ghost use Rattle.image.specs.Letters.{letter, letter_of};
ghost use Rattle.image.specs.FileTypes.{kind_meant, code_meant, KindOf, type_text};

use std::fmt;
use wire::fault::Fault;
use wire::number::read_number;

// In the order of their numbers.
#[derive(Clone, Copy, PartialEq, Eq)]
pub enum FileType {
    Directory = 0,
    RegularFile = 1,
    Symlink = 2,
    NamedPipe = 3,
    CharDevice = 4,
    BlockDevice = 5,
    Socket = 6,
}

impl FileType {
    // Its number in the image: a method and no `From`, since a record's code is another number of it.
    pub fn number(self) -> u64
        ensures { (result ≡ kind_number (kind_meant self)) × (result ≤ 6) }
    {
        self as u64
    }

    // Its code in a record, whose 0 is a tombstone.
    pub fn code(self) -> u64
        ensures { (result ≡ kind_number (kind_meant self) + 1) × (result ≤ 7) }
    {
        self.number() + 1
    }

    // The letter that a listing shows for it.
    pub fn letter(self) -> u8
        ensures { result ≡ letter (kind_meant self) }
    {
        type_letter(self.number()).unwrap()
    }
}

impl fmt::Display for FileType {
    ghost output = { λ file_type. Some (type_text file_type) };

    fn fmt<W: fmt::Write>(&self, f: &mut fmt::Formatter<W>) -> fmt::Result {
        f.write_str(match self {
            FileType::Directory => "directory",
            FileType::RegularFile => "file",
            FileType::Symlink => "symlink",
            FileType::NamedPipe => "pipe",
            FileType::CharDevice => "character device",
            FileType::BlockDevice => "block device",
            FileType::Socket => "socket",
        })
    }
}

// The letter that a listing shows for the kind of this number; numbers above 6 are no kind. The project fixes this form:
// a `match` from any number (docs/DECISIONS.md).
pub fn type_letter(kind: u64) -> Option<u8>
    ensures { result ≡ letter_of kind }
{
    match kind {
        0 => Some(b'd'),
        1 => Some(b'-'),
        2 => Some(b'l'),
        3 => Some(b'p'),
        4 => Some(b'c'),
        5 => Some(b'b'),
        6 => Some(b's'),
        _ => None,
    }
}

// The kind of a number; one above 6 is badly formed.
impl TryFrom<u64> for FileType {
    type Error = Fault;

    ghost try_from_gives = { KindOf };

    fn try_from(number: u64) -> Result<FileType, Fault> {
        match number {
            0 => Ok(FileType::Directory),
            1 => Ok(FileType::RegularFile),
            2 => Ok(FileType::Symlink),
            3 => Ok(FileType::NamedPipe),
            4 => Ok(FileType::CharDevice),
            5 => Ok(FileType::BlockDevice),
            6 => Ok(FileType::Socket),
            _ => Err(Fault::Malformed),
        }
    }
}

// The kind at `at`, and the place after it. Beside `read_reason` (survey): what the number means is another law in each.
#[tactic(auto, unfolding(crate::specs::KindLayout::kind))]
pub fn read_file_type(img: &[u8], at: usize) -> Result<(FileType, usize), Fault>
    ensures { Reads img.now kind.read at (meant kind_meant result) }
{
    let (number, next) = read_number(img, at, 6)?;
    let kind = FileType::try_from(number)?;
    Ok((kind, next))
}

// The code of a record at `at`: the kind that its delta is of, or none for a tombstone; and the place after it.
#[tactic(auto, unfolding(crate::specs::KindLayout::code))]
pub fn read_code(img: &[u8], at: usize) -> Result<(Option<FileType>, usize), Fault>
    ensures { Reads img.now code.read at (meant code_meant result) }
{
    let (number, next) = read_number(img, at, 7)?;
    if number == 0 {
        return Ok((None, next));
    }
    let kind = FileType::try_from(number - 1)?;
    Ok((Some(kind), next))
}
