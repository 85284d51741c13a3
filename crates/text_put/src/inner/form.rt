// The two forms of a text, and the pass that writes one as the other, for the crates of this
// repository.
ghost use Rattle.std.specs.Prelude.{◌≡◌, ℕ, ◌+◌, ◌*◌, ◌<◌, ◌≤◌, List, length, drop};
ghost use Rattle.std.proofs.Common.{rules};
ghost use Rattle.format.specs.Answer.{Read, room_after};
ghost use Rattle.format.specs.Text.{char8, utf8, char16, utf16};
ghost use Rattle.format.proofs.Characters.{Form};
ghost use Rattle.format.proofs.Number.{Bytes};
ghost use Rattle.lists.specs.Put.{put_at};
ghost use Rattle.text_char.specs.Told.{char_told, fewest};
ghost use Rattle.text_char.proofs.Forms.{form_of_utf8, form_of_utf16, least8, most8, least16, most16};
ghost use Rattle.text_put.specs.Turned.{turned};
ghost use Rattle.wire.specs.Told.{Fitting};

use crate::inner;
use text_char::{utf8, utf16};
use wire::Refusal;

// A form of text: how a character is read at a place, how many bytes it takes, how it is written.
pub trait TextForm {
    // The reader of a character, a character's bytes, and how many bytes a unit has.
    ghost char: { List ℕ → Read ℕ };

    ghost spell: { ℕ → List ℕ };

    ghost UNIT: { ℕ };

    const UNIT: usize;

    fn char_at(s: &[u8], at: usize) -> Result<(u32, usize), Refusal>
        ensures { char_told result ≡ char (drop at s.now) };

    fn size(c: u32) -> usize
        ensures { result ≡ length (spell c) };

    fn put(out: &mut [u8], o: usize, c: u32) -> usize
        requires { (c ≤ 0x10FFFF) × (o + length (spell c) ≤ length out.old) }
        ensures size { result ≡ length (spell c) }
        ensures room { out.new ≡ put_at out.old o (spell c) };

    // What is read is what is spelled; and no form takes more than twice the bytes of another.
    ghost some: { 0 < UNIT };

    ghost spelled: { Form char spell Bytes };

    ghost least: { (c : ℕ) → fewest c ≤ length (spell c) };

    ghost most: { (c : ℕ) → length (spell c) ≤ 2 * fewest c };
}

pub struct Utf8;

impl TextForm for Utf8 {
    ghost char = { char8 };

    ghost spell = { utf8 };

    ghost UNIT = { 1 };

    const UNIT: usize = 1;

    #[inline(always)]
    fn char_at(s: &[u8], at: usize) -> Result<(u32, usize), Refusal> {
        utf8::char8_at(s, at)
    }

    fn size(c: u32) -> usize {
        utf8::size8(c)
    }

    fn put(out: &mut [u8], o: usize, c: u32) -> usize {
        inner::put_char8(out, o, c)
    }

    ghost some = { Prim.search rules };

    ghost spelled = { form_of_utf8 };

    ghost least = { least8 };

    ghost most = { most8 };
}

pub struct Utf16;

impl TextForm for Utf16 {
    ghost char = { char16 };

    ghost spell = { utf16 };

    ghost UNIT = { 2 };

    const UNIT: usize = 2;

    fn char_at(s: &[u8], at: usize) -> Result<(u32, usize), Refusal> {
        utf16::char16_at(s, at)
    }

    fn size(c: u32) -> usize {
        utf16::size16(c)
    }

    fn put(out: &mut [u8], o: usize, c: u32) -> usize {
        inner::put_char16(out, o, c)
    }

    ghost some = { Prim.search rules };

    ghost spelled = { form_of_utf16 };

    ghost least = { least16 };

    ghost most = { most16 };
}

// A text of one form in another, at the front of the room.
pub fn write<F: TextForm, T: TextForm>(s: &[u8], out: &mut [u8])
    requires { Fitting (turned F.UNIT F.char T.spell s.now) (length out.old) }
    ensures { out.new ≡ room_after (turned F.UNIT F.char T.spell s.now) out.old }
{
    let mut at: usize = 0;
    let mut o: usize = 0;
    while at < s.len() {
        let Ok((c, k)) = F::char_at(s, at) else {
            return;
        };
        o += T::put(out, o, c);
        at += k;
    }
}
