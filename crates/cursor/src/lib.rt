// The cursor that callers use: a place in the input, by value, whose methods read what stands there
// and hand back the next cursor with the answer. Thin over the readers of the layers below, whose
// own place is `wire::Cursor`.

#![tactic(auto)]

ghost use Rattle.std.specs.Prelude.{◌≡◌, List, ℕ, ◌+◌, ◌^◌, length};
ghost use Rattle.format.specs.Answer.{map_read, read_at};
ghost use Rattle.format.specs.Number.{read_byte, read_low, read_high};
ghost use Rattle.format.specs.Header.{read_header};
ghost use Rattle.format.specs.Descriptor.{read_column};
ghost use Rattle.format.specs.Plp.{open_walk, join_plp, room_after_join};
ghost use Rattle.plp_join.specs.Told.{counted};
ghost use Rattle.wire.specs.Told.{width_of, read_guid};
ghost use Rattle.column_type.specs.Told.{column_told};
ghost use Rattle.value_read.specs.Told.{found_out, room_out};
ghost use Rattle.value_part.specs.Told.{short_content};
ghost use Rattle.cursor.specs.Told.{read_told, NumberBelow, header_told, column_read_told, NamesFrom, value_read_told, CanonicalRead, opened_told, joined_told};

use column_type::Column;
use header::Header;
use plp::Walk;
use value_found::Found;
use wire::{Guid, Refusal, Width};

// A place in the input.
#[derive(Clone, Copy)]
pub struct Cursor {
    pub at: usize,
}

// A walk behind the eight bytes; or the cursor behind a null, which has no chunks.
#[derive(Clone, Copy)]
pub enum Opened {
    Walk(Walk),
    Null(Cursor),
}

impl Cursor {
    // The byte at the cursor.
    pub fn byte(self, s: &[u8]) -> Result<(u8, Cursor), Refusal>
        ensures { read_told result ≡ read_at read_byte s.now self.at }
    {
        let from = wire::Cursor { at: self.at };
        let (b, next) = from.byte(s)?;
        Ok((b, Cursor { at: next.at }))
    }

    // The number at the cursor, low byte first.
    pub fn low(self, s: &[u8], w: Width) -> Result<(u64, Cursor), Refusal>
        ensures { (read_told result ≡ read_at (read_low (width_of w)) s.now self.at) × NumberBelow (256 ^ width_of w) result }
    {
        let from = wire::Cursor { at: self.at };
        let (n, next) = from.low(s, w)?;
        Ok((n, Cursor { at: next.at }))
    }

    // The number at the cursor, high byte first.
    pub fn high(self, s: &[u8], w: Width) -> Result<(u64, Cursor), Refusal>
        ensures { (read_told result ≡ read_at (read_high (width_of w)) s.now self.at) × NumberBelow (256 ^ width_of w) result }
    {
        let from = wire::Cursor { at: self.at };
        let (n, next) = from.high(s, w)?;
        Ok((n, Cursor { at: next.at }))
    }

    // The GUID whose sixteen bytes in wire order stand at the cursor.
    pub fn guid(self, s: &[u8]) -> Result<(Guid, Cursor), Refusal>
        ensures { read_told result ≡ read_at read_guid s.now self.at }
    {
        let from = wire::Cursor { at: self.at };
        let (g, next) = from.guid(s)?;
        Ok((g, Cursor { at: next.at }))
    }

    // The packet header at the cursor.
    pub fn header(self, s: &[u8]) -> Result<(Header, Cursor), Refusal>
        ensures { header_told result ≡ read_at read_header s.now self.at }
    {
        let from = wire::Cursor { at: self.at };
        let (h, next) = header::read_header(s, from)?;
        Ok((h, Cursor { at: next.at }))
    }

    // The column's descriptor at the cursor. Names are spans of the whole input.
    pub fn column(self, s: &[u8]) -> Result<(Column, Cursor), Refusal>
        ensures told { column_read_told s.now result ≡ read_at read_column s.now self.at }
        ensures names { NamesFrom s.now (self.at + 3) result }
    {
        let from = wire::Cursor { at: self.at };
        let (c, next) = column_read::read_column(s, from)?;
        Ok((c, Cursor { at: next.at }))
    }

    // The value of the column at the cursor; PLP content is joined at the front of the room.
    pub fn value(self, c: Column, s: &[u8], out: &mut [u8]) -> Result<(Found, Cursor), Refusal>
        ensures told { (b : List ℕ) → value_read_told result ≡ found_out (column_told b c) s.now self.at out.old }
        ensures canonical { CanonicalRead result }
        ensures room { (b : List ℕ) → out.new ≡ room_out (column_told b c) s.now self.at out.old }
    {
        let from = wire::Cursor { at: self.at };
        let (f, next) = value_read::read_value(c, s, from, out)?;
        Ok((f, Cursor { at: next.at }))
    }

    // The content of the short value at the cursor, as a part of the input; the empty part where there
    // is no such value.
    pub fn short_content(self, c: Column, s: &[u8]) -> &[u8]
        ensures { (b : List ℕ) → result.now ≡ short_content (column_told b c) s.now self.at }
    {
        value_part::short_content(c, s, wire::Cursor { at: self.at })
    }

    // The eight bytes of a PLP value at the cursor, and the walk behind them.
    pub fn open_walk(self, s: &[u8], text: bool) -> Result<Opened, Refusal>
        ensures { opened_told result ≡ open_walk text s.now self.at }
    {
        let from = wire::Cursor { at: self.at };
        match plp::open_walk(s, from, text)? {
            plp::Opened::Walk(w) => Ok(Opened::Walk(w)),
            plp::Opened::Null(next) => Ok(Opened::Null(Cursor { at: next.at })),
        }
    }

    // The PLP value at the cursor, its chunks joined at the front of the room, and how many bytes its
    // content has there; none where it is null.
    pub fn join_plp(
        self,
        s: &[u8],
        text: bool,
        out: &mut [u8],
    ) -> Result<(Option<usize>, Cursor), Refusal>
        ensures answer { joined_told result ≡ map_read counted (join_plp text s.now self.at (length out.old)) }
        ensures room { out.new ≡ room_after_join text s.now self.at out.old }
    {
        let from = wire::Cursor { at: self.at };
        let (joined, next) = plp_join::join_plp(s, from, text, out)?;
        Ok((joined, Cursor { at: next.at }))
    }
}
