// The codec: every call that a program outside this repository may use, with the types in its
// signature, under one name. docs/PUBLIC.md has each call's contract; the code stands in the crates
// named here.

#![tactic(auto)]

// The cursor: a place in the input, whose methods read a byte, a number, a GUID, a packet header, a
// column's descriptor, its value or a PLP walk, and hand back the next cursor.
pub use cursor::{Cursor, Opened};

// What every call answers with.
pub use guid::write_guid;
pub use wire::{Guid, Refusal, Width};

// The packet header.
pub use header::{Header, PacketStatus, PacketType, write_header};

// The prelogin message.
pub use prelogin::{Encryption, Prelogin, write_prelogin};

// Text between UTF-8 and UTF-16LE.
pub use text::{to_utf8, to_utf16, utf8_size, utf16_size};

// TYPE_INFO, a column's descriptor.
pub use column_size::column_size;
pub use column_type::{
    ByteLen, Collation, Column, FixedLen, LongLen, Name, Schema, TypeId, UShortLen, plain,
};
pub use column_write::write_column;

// One column value.
pub use untyped_size::untyped_size;
pub use untyped_write::write_untyped;
pub use value_kind::{Scalar, Span, Value};
pub use value_write::{value_size, write_value};

// A value that was read, and where its content stands.
pub use value_found::{Found, Stand};
pub use value_part::handed_back;

// PLP values: the chunk walk, and the walk object that keeps the lent input.
pub use plp::{Walk, walk_chunks};
pub use plp_walk::{
    Standing, WalkObject, at_rest, step_walk, walk_object, walk_on, walk_place, walk_standing,
};

// A row under a lent list of columns: judged, read, normalised, sized, written. `RowPlace::value`
// takes the values of a row that was read, one after another.
pub use judge_step::RowNeeds;
pub use row_judge::judge_row;
pub use row_normal::normal_row;
pub use row_place::RowPlace;
pub use row_read::read_row;
pub use row_size::row_size;
pub use row_write::write_row;

// The same for a program that holds its columns and values in arrays of 1,024 places with a count.
pub use held::{held_row_size, write_held_row};
pub use held_normal::normal_held_row;
pub use held_read::{judge_held_row, read_held_row};
