// One character of UTF-8: decoding by table 3-7 of the Unicode Standard, and the size.
ghost use Rattle.std.specs.Prelude.{◌≡◌, length, drop};
ghost use Rattle.format.specs.Text.{char8, utf8};
ghost use Rattle.text_char.specs.Told.{char_told, stands_in};

use crate::inner;
use text_lead::within;
use wire::Refusal;

// Whether a byte from low up to high stands at a place.
pub fn stands(s: &[u8], at: usize, low: u32, high: u32) -> bool
    ensures { result ≡ stands_in low high (drop at s.now) }
{
    at < s.len() && within(low, high, s[at] as u32)
}

// The character at a place. A pass calls it for each character: as a call it would cost as much again.
#[inline(always)]
#[tactic(auto, using(crate::proofs::Places::first8))]
pub fn char8_at(s: &[u8], at: usize) -> Result<(u32, usize), Refusal>
    ensures { char_told result ≡ char8 (drop at s.now) }
{
    if s.len() <= at {
        return Err(Refusal::NotText);
    }
    let a = s[at] as u32;
    if a < 0x80 {
        return Ok((a, 1));
    }
    let Some(row) = text_lead::row_of(a) else {
        return Err(Refusal::NotText);
    };
    inner::rest8_at(s, at + 1, a, row)
}

// How many bytes a scalar value takes.
#[tactic(auto, using(crate::proofs::Sizes::sizes))]
pub fn size8(c: u32) -> usize
    ensures { result ≡ length (utf8 c) }
{
    match c {
        0..=0x7F => 1,
        0x80..=0x7FF => 2,
        0x800..=0xFFFF => 3,
        _ => 4,
    }
}
