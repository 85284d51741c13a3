// What every layer reads and answers with: the refusals, the cursor and what it reads: bytes, numbers
// over the width, GUIDs.

#![tactic(auto)]

pub mod inner;
pub mod marks;

ghost use Rattle.std.specs.Prelude.{◌≡◌, ◌+◌, ◌^◌, leb, length};
ghost use Rattle.format.specs.Answer.{number, read_at};
ghost use Rattle.format.specs.Number.{read_byte, read_low, read_high};
ghost use Rattle.wire.specs.Told.{width_of, refusal_told, read_told, NumberBelow, read_guid};

// Document 01's refusals, in the order of its table.
#[derive(Clone, Copy, Debug, PartialEq, Eq)]
pub enum Refusal {
    Missing = 1,
    Unknown = 2,
    Kind = 3,
    Room = 4,
    Long = 5,
    Rule = 6,
    NotCarried = 7,
    Sequence = 8,
    NotText = 9,
}

impl Refusal {
    // Its number in the table.
    pub fn number(self) -> u8
        ensures { result ≡ number (refusal_told self) }
    {
        self as u8
    }
}

// The widths of a number, in bytes.
#[derive(Clone, Copy, Debug, PartialEq, Eq)]
pub enum Width {
    One = 1,
    Two = 2,
    Four = 4,
    Eight = 8,
}

// A place in the input.
#[derive(Clone, Copy)]
pub struct Cursor {
    pub at: usize,
}

// A GUID in text order: its first eight bytes and its last eight, each high byte first.
#[derive(Clone, Copy)]
pub struct Guid {
    pub high: u64,
    pub low: u64,
}

impl Width {
    // How many bytes a number of the width takes.
    pub fn bytes(self) -> usize
        ensures { result ≡ width_of self }
    {
        self as usize
    }
}

// The width of so many bytes.
impl TryFrom<u8> for Width {
    ghost use Rattle.wire.specs.Told.{known, widths, width_told};

    type Error = Refusal;

    ghost try_from_gives = { λ n r. width_told r ≡ known widths n };

    #[tactic(auto, unfolding(crate::specs::Told::known))]
    fn try_from(n: u8) -> Result<Width, Refusal> {
        match n {
            1 => Ok(Width::One),
            2 => Ok(Width::Two),
            4 => Ok(Width::Four),
            8 => Ok(Width::Eight),
            _ => Err(Refusal::Unknown),
        }
    }
}

// Do n bytes from a place lie inside the input? Exact for any two numbers.
pub fn inside(s: &[u8], at: usize, n: usize) -> bool
    ensures { result ≡ leb (at + n) (length s.now) }
{
    at <= s.len() && n <= s.len() - at
}

impl Cursor {
    // The byte at the cursor.
    pub fn byte(self, s: &[u8]) -> Result<(u8, Cursor), Refusal>
        ensures { read_told result ≡ read_at read_byte s.now self.at }
    {
        let at = self.at;
        if at < s.len() {
            Ok((s[at], Cursor { at: at + 1 }))
        } else {
            Err(Refusal::Missing)
        }
    }

    // The number at the cursor, low byte first.
    pub fn low(self, s: &[u8], w: Width) -> Result<(u64, Cursor), Refusal>
        ensures { (read_told result ≡ read_at (read_low (width_of w)) s.now self.at) × NumberBelow (256 ^ width_of w) result }
    {
        let at = self.at;
        let n = w.bytes();
        if inside(s, at, n) {
            return Ok((inner::low_at(s, at, n), Cursor { at: at + n }));
        }
        Err(Refusal::Missing)
    }

    // The number at the cursor, high byte first.
    pub fn high(self, s: &[u8], w: Width) -> Result<(u64, Cursor), Refusal>
        ensures { (read_told result ≡ read_at (read_high (width_of w)) s.now self.at) × NumberBelow (256 ^ width_of w) result }
    {
        let at = self.at;
        let n = w.bytes();
        if inside(s, at, n) {
            return Ok((inner::high_at(s, at, n), Cursor { at: at + n }));
        }
        Err(Refusal::Missing)
    }

    // The GUID whose sixteen bytes in wire order stand at the cursor.
    pub fn guid(self, s: &[u8]) -> Result<(Guid, Cursor), Refusal>
        ensures { read_told result ≡ read_at read_guid s.now self.at }
    {
        let at = self.at;
        if inside(s, at, 16) {
            return Ok((inner::guid_at(s, at), Cursor { at: at + 16 }));
        }
        Err(Refusal::Missing)
    }
}
