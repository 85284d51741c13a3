// One character of UTF-16LE: decoding by its units, and the size.
ghost use Rattle.std.specs.Prelude.{◌≡◌, length, drop};
ghost use Rattle.format.specs.Text.{char16, utf16};
ghost use Rattle.text_char.specs.Told.{char_told};

use crate::inner;
use wire::Refusal;

// The high surrogates, the low ones behind them, and the first scalar value that takes a pair.
pub const HIGH: u32 = 0xD800;

pub const LAST_HIGH: u32 = 0xDBFF;

pub const LOW: u32 = 0xDC00;

pub const LAST_LOW: u32 = 0xDFFF;

pub const PAIRED: u32 = 0x10000;

// The character at a place.
#[tactic(auto, using(crate::proofs::Units::first16))]
pub fn char16_at(s: &[u8], at: usize) -> Result<(u32, usize), Refusal>
    ensures { char_told result ≡ char16 (drop at s.now) }
{
    if s.len().saturating_sub(at) < 2 {
        return Err(Refusal::NotText);
    }
    let first = inner::unit_at(s, at);
    match first {
        HIGH..=LAST_HIGH => inner::pair_at(s, at + 2, first),
        LOW..=LAST_LOW => Err(Refusal::NotText),
        _ => Ok((first, 2)),
    }
}

// How many bytes a scalar value takes.
#[tactic(auto, using(crate::proofs::Sizes::sizes))]
pub fn size16(c: u32) -> usize
    ensures { result ≡ length (utf16 c) }
{
    if c < PAIRED { 2 } else { 4 }
}
