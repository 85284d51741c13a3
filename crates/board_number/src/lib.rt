// Numbers and GUIDs at a place of the input, as plain numbers and bytes; a GUID written.

#![tactic(auto)]

ghost use Rattle.std.specs.Prelude.{◌≡◌, length};
ghost use Rattle.format.specs.Answer.{gives, fitted, wrote, room_after};
ghost use Rattle.format.specs.Guid.{guid_order};
ghost use Rattle.wire.specs.Told.{read_told, guid_bytes};
ghost use Rattle.board_answer.specs.Told.{counted, place, after};
ghost use Rattle.board_number.specs.Plain.{number_at, guid_at};

use board_answer::Counted;
use wire::{Cursor, Guid, Refusal, Width};

// The number of a width at a place of the bytes, in one of the two orders.
fn number_of(bytes: &[u8], at: usize, width: u8, high: u8) -> Result<(u64, Cursor), Refusal>
    ensures { read_told result ≡ number_at width high bytes.now at }
{
    let w = Width::try_from(width)?;
    let from = Cursor { at };
    if board_answer::flag(u64::from(high))? {
        from.high(bytes, w)
    } else {
        from.low(bytes, w)
    }
}

// The number of a width at a place of the bytes, high byte first or low byte first.
pub fn number_read(bytes: &[u8], at: usize, width: u8, high: u8, to: &mut u64) -> Counted
    ensures answer { result ≡ counted (place (number_at width high bytes.now at)) }
    ensures room { to.new ≡ after (number_at width high bytes.now at) to.old }
{
    match number_of(bytes, at, width, high) {
        Ok((n, next)) => {
            *to = n;
            board_answer::at(next.at)
        }
        Err(e) => board_answer::refused(e),
    }
}

// The GUID's sixteen bytes in text order.
fn put_text(text: &mut [u8], g: Guid)
    requires { length text.old ≡ 16 }
    ensures { text.new ≡ guid_bytes g }
{
    wire::inner::put_high(text, 0, g.high, 8);
    wire::inner::put_high(text, 8, g.low, 8);
}

// The GUID at a place of the bytes, in text order.
pub fn guid_read(bytes: &[u8], at: usize, text: &mut [u8; 16]) -> Counted
    ensures answer { result ≡ counted (place (guid_at bytes.now at)) }
    ensures room { text.new ≡ after (guid_at bytes.now at) text.old }
{
    match (Cursor { at }).guid(bytes) {
        Ok((g, next)) => {
            put_text(text, g);
            board_answer::at(next.at)
        }
        Err(e) => board_answer::refused(e),
    }
}

// The GUID of sixteen bytes in text order, in wire order at the front of the room.
fn write_text(text: &[u8], out: &mut [u8]) -> Counted
    requires { length text.now ≡ 16 }
    ensures answer { result ≡ counted (wrote (fitted (gives (guid_order text.now)) (length out.old))) }
    ensures room { out.new ≡ room_after (fitted (gives (guid_order text.now)) (length out.old)) out.old }
{
    let high = wire::inner::high_at(text, 0, 8);
    let low = wire::inner::high_at(text, 8, 8);
    board_answer::answer(guid::write_guid(Guid { high, low }, out))
}

// The same of a whole array.
pub fn guid_write(text: &[u8; 16], out: &mut [u8]) -> Counted
    ensures answer { result ≡ counted (wrote (fitted (gives (guid_order text.now)) (length out.old))) }
    ensures room { out.new ≡ room_after (fitted (gives (guid_order text.now)) (length out.old)) out.old }
{
    write_text(text, out)
}
