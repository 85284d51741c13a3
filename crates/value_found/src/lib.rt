// What was found in a row: a value by its kind, and where its content stands.

#![tactic(auto)]

pub mod inner;

ghost use Rattle.std.specs.Prelude.{◌≡◌};
ghost use Rattle.value_found.specs.Told.{stand_told, found_told, in_room, room_count};

use value_kind::{Scalar, Span};

// Where content stands: a part of the input, its start counted in the whole input; or of the room.
#[derive(Clone, Copy)]
pub enum Stand {
    Input(Span),
    Room(Span),
}

// A value that was read. A string is its UTF-16LE bytes. It is no value to be written, whose string
// is UTF-8 in a buffer of its own.
#[derive(Clone, Copy)]
pub enum Found {
    Null,
    Scalar(Scalar),
    Binary(Stand),
    String(Stand),
}

impl Stand {
    // How many bytes of the room the part has.
    pub fn in_room(self) -> usize
        ensures { result ≡ in_room (stand_told self) }
    {
        match self {
            Stand::Input(_) => 0,
            Stand::Room(p) => p.count,
        }
    }
}

impl Found {
    // How many content bytes of the value were copied out.
    pub fn copied(self) -> usize
        ensures { result ≡ room_count (found_told self) }
    {
        match self {
            Found::Null | Found::Scalar(_) => 0,
            Found::Binary(p) | Found::String(p) => p.in_room(),
        }
    }
}
