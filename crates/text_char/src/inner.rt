// Leaves that ask something of their caller: the rest of a character whose first byte has chosen its
// row, and units that are there. For this crate alone.
ghost use Rattle.std.specs.Prelude.{◌≡◌, ◌+◌, ◌-◌, ◌≤◌, ◌<◌, length, get_or, drop};
ghost use Rattle.format.specs.Text.{second8, unit, pair16};
ghost use Rattle.text_char.specs.Told.{char_told};
ghost use Rattle.text_lead.specs.Told.{row_told, Led};

use crate::utf8;
use crate::utf16::{HIGH, LAST_LOW, LOW, PAIRED};
use text_lead::Row;
use wire::Refusal;

// The six low bits of a byte from 80 up to BF.
fn six_at(s: &[u8], at: usize) -> u32
    requires { (at < length s.now) × (0x80 ≤ get_or s.now at 0) × (get_or s.now at 0 ≤ 0xBF) }
    ensures { (result ≡ get_or s.now at 0 - 0x80) × (result < 64) }
{
    s[at] as u32 - 0x80
}

// The rest of a character from its second byte on, behind the first byte a.
#[tactic(auto, using(crate::proofs::Places::rest8))]
pub fn rest8_at(s: &[u8], at: usize, a: u32, row: Row) -> Result<(u32, usize), Refusal>
    requires { Led a (row_told row) }
    ensures { char_told result ≡ second8 (row_told row) a (drop at s.now) }
{
    if !utf8::stands(s, at, row.low, row.high) {
        return Err(Refusal::NotText);
    }
    let two = (a - row.marker) * 64 + six_at(s, at);
    if row.more == 0 {
        return Ok((two, 2));
    }
    if !utf8::stands(s, at + 1, 0x80, 0xBF) {
        return Err(Refusal::NotText);
    }
    let three = two * 64 + six_at(s, at + 1);
    if row.more == 1 {
        return Ok((three, 3));
    }
    if !utf8::stands(s, at + 2, 0x80, 0xBF) {
        return Err(Refusal::NotText);
    }
    Ok((three * 64 + six_at(s, at + 2), 4))
}

// The unit at a place, low byte first.
pub fn unit_at(s: &[u8], at: usize) -> u32
    requires { at + 2 ≤ length s.now }
    ensures { (result ≡ unit (drop at s.now)) × (result < 0x10000) }
{
    s[at] as u32 + s[at + 1] as u32 * 256
}

// The rest of a character behind the high surrogate a: the low surrogate at a place.
pub fn pair_at(s: &[u8], at: usize, a: u32) -> Result<(u32, usize), Refusal>
    requires { (at ≤ length s.now) × (0xD800 ≤ a) × (a ≤ 0xDBFF) }
    ensures { char_told result ≡ pair16 a (drop at s.now) }
{
    if s.len() - at < 2 {
        return Err(Refusal::NotText);
    }
    match unit_at(s, at) {
        b @ LOW..=LAST_LOW => Ok((PAIRED + (a - HIGH) * 1024 + (b - LOW), 4)),
        _ => Err(Refusal::NotText),
    }
}
