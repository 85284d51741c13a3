// Leaves that ask something of their caller, for the crates of this repository: a scalar value or a
// whole text, written into room that it fits.
ghost use Rattle.std.specs.Prelude.{◌≡◌, ◌+◌, ◌-◌, ◌≤◌, ◌<◌, length, get_or, drop};
ghost use Rattle.format.specs.Answer.{room_after};
ghost use Rattle.format.specs.Text.{utf8, utf16, text_in, text_out};
ghost use Rattle.format.specs.Number.{low_bytes};
ghost use Rattle.lists.specs.Put.{put_at};
ghost use Rattle.std.proofs.lemmas.List.Edits.{sets};
ghost use Rattle.wire.specs.Told.{Fitting};

pub mod form;

use form::{Utf8, Utf16};
use text_char::utf16::{HIGH, LOW, PAIRED};

// The unit n at a place, low byte first.
fn put_unit(out: &mut [u8], o: usize, n: u32)
    requires { o + 2 ≤ length out.old }
    ensures { out.new ≡ sets out.old o (low_bytes 2 n) }
{
    out[o] = (n % 256) as u8;
    out[o + 1] = (n / 256 % 256) as u8;
}

// The units of a scalar value at a place, and how many bytes they are.
#[tactic(auto, using(crate::proofs::Stored::units))]
pub fn put_char16(out: &mut [u8], o: usize, c: u32) -> usize
    requires { o + length (utf16 c) ≤ length out.old }
    ensures size { result ≡ length (utf16 c) }
    ensures room { out.new ≡ put_at out.old o (utf16 c) }
{
    if c < PAIRED {
        put_unit(out, o, c);
        2
    } else {
        put_unit(out, o, HIGH + (c - PAIRED) / 1024);
        put_unit(out, o + 2, LOW + (c - PAIRED) % 1024);
        4
    }
}

// The bytes of a scalar value in UTF-8 at a place, and how many they are.
#[tactic(auto, using(crate::proofs::Stored::bytes))]
pub fn put_char8(out: &mut [u8], o: usize, c: u32) -> usize
    requires { (c ≤ 0x10FFFF) × (o + length (utf8 c) ≤ length out.old) }
    ensures size { result ≡ length (utf8 c) }
    ensures room { out.new ≡ put_at out.old o (utf8 c) }
{
    match c {
        0..=0x7F => {
            out[o] = c as u8;
            1
        }
        0x80..=0x7FF => {
            out[o] = (0xC0 + c / 64) as u8;
            out[o + 1] = (0x80 + c % 64) as u8;
            2
        }
        0x800..=0xFFFF => {
            out[o] = (0xE0 + c / 4096) as u8;
            out[o + 1] = (0x80 + c / 64 % 64) as u8;
            out[o + 2] = (0x80 + c % 64) as u8;
            3
        }
        _ => {
            out[o] = (0xF0 + c / 262144) as u8;
            out[o + 1] = (0x80 + c / 4096 % 64) as u8;
            out[o + 2] = (0x80 + c / 64 % 64) as u8;
            out[o + 3] = (0x80 + c % 64) as u8;
            4
        }
    }
}

// A text in UTF-8 as UTF-16LE, at the front of the room.
pub fn write_utf16(s: &[u8], out: &mut [u8])
    requires { Fitting (text_in s.now) (length out.old) }
    ensures { out.new ≡ room_after (text_in s.now) out.old }
{
    form::write::<Utf8, Utf16>(s, out);
}

// A text in UTF-16LE as UTF-8, at the front of the room.
pub fn write_utf8(u: &[u8], out: &mut [u8])
    requires { Fitting (text_out u.now) (length out.old) }
    ensures { out.new ≡ room_after (text_out u.now) out.old }
{
    form::write::<Utf16, Utf8>(u, out);
}
