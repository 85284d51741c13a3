// A column's descriptor, of a record of 16 bytes and six numbers: start and units of XML_INFO's three
// names in a lent buffer. Sized, written.

#![tactic(auto)]

ghost use Rattle.std.specs.Prelude.{◌≡◌, length};
ghost use Rattle.format.specs.Answer.{fitted, wrote, room_after};
ghost use Rattle.board_answer.specs.Told.{counted};
ghost use Rattle.board_column.specs.Plain.{column_given};
ghost use Rattle.board_column.specs.Made.{column_named};

use board_answer::Counted;
use column_type::{Column, Name, Schema};

// The column of a record, its names where the numbers say.
fn column_of(column: &[u8; 16], n: &[u64; 6]) -> Column
    ensures { result ≡ column_named column.now n.now }
{
    let names = Schema {
        database: Name {
            start: n[0] as usize,
            units: n[1] as usize,
        },
        owner: Name {
            start: n[2] as usize,
            units: n[3] as usize,
        },
        collection: Name {
            start: n[4] as usize,
            units: n[5] as usize,
        },
    };
    packed::column_of(column, names)
}

// How many bytes the descriptor takes.
pub fn column_size(column: &[u8; 16], names: &[u64; 6], buffer: &[u8]) -> Counted
    ensures { result ≡ counted (wrote (column_given column.now names.now buffer.now)) }
{
    let c = column_of(column, names);
    board_answer::answer(column_size::column_size(c, buffer))
}

// The descriptor, at the front of the room.
pub fn column_write(column: &[u8; 16], names: &[u64; 6], buffer: &[u8], out: &mut [u8]) -> Counted
    ensures answer { result ≡ counted (wrote (fitted (column_given column.now names.now buffer.now) (length out.old))) }
    ensures room { out.new ≡ room_after (fitted (column_given column.now names.now buffer.now) (length out.old)) out.old }
{
    // The common forms first.
    if let Some(n) = record_write::write_record(column, out) {
        return board_answer::at(n);
    }
    let c = column_of(column, names);
    board_answer::answer(column_write::write_column(c, buffer, out))
}
