// The fields of a frame, read from the front on. A frame that breaks the protocol does not occur: a
// field that is cut, and each one behind it, is 0, or no bytes.

use crate::say;

#[derive(Drop)]
pub struct Fields<'a> {
    rest: &'a [u8],
}

impl<'a> Fields<'a> {
    ghost use Rattle.std.specs.Prelude.{◌≡◌, ◌≢◌, ◌≤◌, ◌↔◌, drop, length, take, IsTrue, slice_index};
    ghost use Rattle.std.specs.Int.{from_le_bytes, w16, w32, w64};
    ghost use Rattle.replay_say.specs.Fields.{field};

    pub fn new(frame: &'a [u8]) -> Self
        ensures { result.rest.now ≡ frame.now }
    {
        Fields { rest: frame }
    }

    // So many bytes as they stand.
    pub fn bytes<const N: usize>(&mut self) -> [u8; N]
        ensures field { result ≡ field N self.old.rest.now }
        ensures behind { self.new.rest.now ≡ drop N self.old.rest.now }
    {
        let Some((field, rest)) = self.rest.split_first_chunk::<N>() else {
            self.rest = &[];
            return [0; N];
        };
        self.rest = rest;
        *field
    }

    // So many bytes, or all that are left, for fields of their own.
    pub fn part(&mut self, n: usize) -> Self
        ensures part { result.rest.now ≡ take n self.old.rest.now }
        ensures behind { self.new.rest.now ≡ drop n self.old.rest.now }
    {
        let whole = self.rest;
        let n = n.min(whole.len());
        self.rest = &whole[n..];
        Fields { rest: &whole[..n] }
    }

    pub fn byte(&mut self) -> u8
        ensures field { result ≡ slice_index (field 1 self.old.rest.now) 0 }
        ensures behind { self.new.rest.now ≡ drop 1 self.old.rest.now }
    {
        let [b] = self.bytes::<1>();
        b
    }

    pub fn flag(&mut self) -> bool
        ensures field { IsTrue result ↔ (slice_index (field 1 self.old.rest.now) 0 ≢ 0) }
        ensures behind { self.new.rest.now ≡ drop 1 self.old.rest.now }
    {
        self.byte() != 0
    }

    pub fn two(&mut self) -> u16
        ensures field { result ≡ from_le_bytes w16 (field 2 self.old.rest.now) }
        ensures behind { self.new.rest.now ≡ drop 2 self.old.rest.now }
    {
        u16::from_le_bytes(self.bytes())
    }

    pub fn four(&mut self) -> u32
        ensures field { result ≡ from_le_bytes w32 (field 4 self.old.rest.now) }
        ensures behind { self.new.rest.now ≡ drop 4 self.old.rest.now }
    {
        u32::from_le_bytes(self.bytes())
    }

    pub fn eight(&mut self) -> u64
        ensures field { result ≡ from_le_bytes w64 (field 8 self.old.rest.now) }
        ensures behind { self.new.rest.now ≡ drop 8 self.old.rest.now }
    {
        u64::from_le_bytes(self.bytes())
    }

    // A place of the input, or a count of its bytes.
    pub fn place(&mut self) -> usize
        ensures field { result ≡ from_le_bytes w64 (field 8 self.old.rest.now) }
        ensures behind { self.new.rest.now ≡ drop 8 self.old.rest.now }
    {
        self.eight() as usize
    }

    // All bytes that are left.
    pub fn rest(self) -> &'a [u8]
        ensures { result.now ≡ self.entry.rest.now }
    {
        self.rest
    }

    // The lent input, the last field, behind its count.
    pub fn input(mut self) -> &'a [u8]
        ensures { result.now ≡ drop 4 self.entry.rest.now }
    {
        let _count = self.four();
        self.rest
    }

    // A room of the size that the frame asks for, at most what is there, full of the filler.
    pub fn room<'r>(&mut self, room: &'r mut [u8]) -> &'r mut [u8]
        ensures within { length result.now ≤ length room.old }
        ensures behind { self.new.rest.now ≡ drop 4 self.old.rest.now }
    {
        let size = (self.four() as usize).min(room.len());
        let room = &mut room[..size];
        say::fill(room);
        room
    }
}
