// A text in UTF-8 as UTF-16LE and back: how many bytes it takes, and the call that finds the size,
// asks for the room and fills it.

#![tactic(auto)]

ghost use Rattle.std.specs.Prelude.{◌≡◌, length};
ghost use Rattle.format.specs.Answer.{fitted, wrote, room_after};
ghost use Rattle.format.specs.Text.{text_in, text_out};
ghost use Rattle.text_put.specs.Turned.{turned};
ghost use Rattle.wire.specs.Told.{answer_told};

use text_put::inner::form;
use text_put::inner::form::{TextForm, Utf8, Utf16};
use wire::Refusal;

// How many bytes a text of one form takes in another. A count that is no whole number of units comes
// before anything else.
fn size_of<F: TextForm, T: TextForm>(s: &[u8]) -> Result<usize, Refusal>
    ensures { answer_told result ≡ wrote (turned F.UNIT F.char T.spell s.now) }
{
    if s.len() % F::UNIT != 0 {
        return Err(Refusal::Sequence);
    }
    let mut at: usize = 0;
    let mut n: usize = 0;
    while at < s.len() {
        let (c, k) = F::char_at(s, at)?;
        n += T::size(c);
        at += k;
    }
    Ok(n)
}

// A text of one form in another, at the front of the room.
fn turn<F: TextForm, T: TextForm>(s: &[u8], out: &mut [u8]) -> Result<usize, Refusal>
    ensures answer { answer_told result ≡ wrote (fitted (turned F.UNIT F.char T.spell s.now) (length out.old)) }
    ensures room { out.new ≡ room_after (fitted (turned F.UNIT F.char T.spell s.now) (length out.old)) out.old }
{
    let n = size_of::<F, T>(s)?;
    if out.len() < n {
        return Err(Refusal::Room);
    }
    form::write::<F, T>(s, out);
    Ok(n)
}

// How many bytes UTF-8 takes in UTF-16LE.
pub fn utf16_size(s: &[u8]) -> Result<usize, Refusal>
    ensures { answer_told result ≡ wrote (text_in s.now) }
{
    size_of::<Utf8, Utf16>(s)
}

// UTF-8 as UTF-16LE, at the front of the room.
pub fn to_utf16(s: &[u8], out: &mut [u8]) -> Result<usize, Refusal>
    ensures answer { answer_told result ≡ wrote (fitted (text_in s.now) (length out.old)) }
    ensures room { out.new ≡ room_after (fitted (text_in s.now) (length out.old)) out.old }
{
    turn::<Utf8, Utf16>(s, out)
}

// How many bytes UTF-16LE takes in UTF-8. An odd count of bytes comes before anything else.
pub fn utf8_size(u: &[u8]) -> Result<usize, Refusal>
    ensures { answer_told result ≡ wrote (text_out u.now) }
{
    size_of::<Utf16, Utf8>(u)
}

// UTF-16LE as UTF-8, at the front of the room.
pub fn to_utf8(u: &[u8], out: &mut [u8]) -> Result<usize, Refusal>
    ensures answer { answer_told result ≡ wrote (fitted (text_out u.now) (length out.old)) }
    ensures room { out.new ≡ room_after (fitted (text_out u.now) (length out.old)) out.old }
{
    turn::<Utf16, Utf8>(u, out)
}
