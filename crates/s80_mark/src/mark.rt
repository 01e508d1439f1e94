// The mark and its bytes.
ghost use Rattle.std.specs.Prelude.{◌≡◌, ◌+◌, ◌≤◌, MatchOption, length};
ghost use Rattle.s80_mark.specs.Mark.{format_two, word_at, mark_of};
ghost use Rattle.s80_mark.specs.Found.{HasLawfulNumbers, IsFirstUnlawful};

/// The image number of a mark that names no image.
pub const NO_IMAGE: u8 = 255;

/// The format of a mark that counts the changes. Marks of an older program have format 0, and no count.
pub const FORMAT_TWO: u8 = 2;

/// How many bytes a mark has behind its gate.
pub(crate) const MARK_SIZE: usize = 43;

/// Which log counts and how far, which image stands for the front of it, and how many changes there are.
#[derive(Clone, Copy, Debug, PartialEq, Eq)]
pub struct MarkState {
    pub sequence: u64,
    pub log: u8,
    pub log_length: u64,
    pub image: u8,
    pub image_length: u64,
    pub image_position: u64,
    pub format: u8,
    /// How many changes the list has. A mark of format 0 doesn't count them, and has 0.
    pub count: u64,
}

impl MarkState {
    pub(crate) fn from_bytes(bytes: &[u8]) -> Self
        requires { length bytes.now ≡ 43 }
        ensures { result ≡ mark_of bytes.now }
    {
        MarkState {
            sequence: word_at(bytes, 0),
            log: bytes[8],
            log_length: word_at(bytes, 9),
            image: bytes[17],
            image_length: word_at(bytes, 18),
            image_position: word_at(bytes, 26),
            format: bytes[34],
            count: if bytes[34] == 0 {
                0
            } else {
                word_at(bytes, 35)
            },
        }
    }

    pub(crate) fn to_bytes(self) -> [u8; MARK_SIZE]
        requires { self.format ≡ format_two }
        ensures { mark_of result ≡ self }
    {
        let mut bytes = [0; MARK_SIZE];
        bytes[..8].copy_from_slice(&self.sequence.to_be_bytes());
        bytes[8] = self.log;
        bytes[9..17].copy_from_slice(&self.log_length.to_be_bytes());
        bytes[17] = self.image;
        bytes[18..26].copy_from_slice(&self.image_length.to_be_bytes());
        bytes[26..34].copy_from_slice(&self.image_position.to_be_bytes());
        bytes[34] = self.format;
        bytes[35..].copy_from_slice(&self.count.to_be_bytes());
        bytes
    }

    /// The first of its numbers that names no log, no image or no format.
    pub(crate) fn unlawful_number(self) -> Option<u8>
        ensures { MatchOption result (HasLawfulNumbers self) (IsFirstUnlawful self) }
    {
        if self.log > 1 {
            return Some(self.log);
        }
        if self.image > 1 && self.image != NO_IMAGE {
            return Some(self.image);
        }
        (self.format != 0 && self.format != FORMAT_TWO).then_some(self.format)
    }
}

/// Eight bytes as a number, the highest first.
fn word_at(bytes: &[u8], at: usize) -> u64
    requires { at + 8 ≤ length bytes.now }
    ensures { result ≡ word_at bytes.now at }
{
    u64::from_be_bytes(bytes[at..at + 8].try_into().unwrap())
}
