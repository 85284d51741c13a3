// Values as three numbers, under a column as a record of 16 bytes: sized, written, read.

#![tactic(auto)]

ghost use Rattle.std.specs.Prelude.{◌≡◌, length};
ghost use Rattle.format.specs.Answer.{fitted, wrote, room_after};
ghost use Rattle.wire.specs.Told.{answer_told};
ghost use Rattle.board_answer.specs.Told.{counted, place, after};
ghost use Rattle.board_value.specs.Plain.{value_given, value_at, room_at};

use board_answer::Counted;
use packed::inner as table;
use packed_slot::inner as slot;
use packed_value::inner as three;
use wire::{Cursor, Refusal};

// How many bytes the value takes under the column, or why it cannot be written.
fn sized(column: &[u8; 16], value: &[u64; 3], buffer: &[u8]) -> Result<usize, Refusal>
    ensures { answer_told result ≡ wrote (value_given column.now value.now buffer.now) }
{
    packed_value::judge_value(value)?;
    let c = table::column_at(column, 0);
    let v = three::value_at(value, 0);
    value_write::value_size(c, v, buffer)
}

// How many bytes the value takes under the column.
pub fn value_size(column: &[u8; 16], value: &[u64; 3], buffer: &[u8]) -> Counted
    ensures { result ≡ counted (wrote (value_given column.now value.now buffer.now)) }
{
    board_answer::answer(sized(column, value, buffer))
}

// How many bytes were written at the front of the room, or why none were.
fn written(
    column: &[u8; 16],
    value: &[u64; 3],
    buffer: &[u8],
    out: &mut [u8],
) -> Result<usize, Refusal>
    ensures answer { answer_told result ≡ wrote (fitted (value_given column.now value.now buffer.now) (length out.old)) }
    ensures room { out.new ≡ room_after (fitted (value_given column.now value.now buffer.now) (length out.old)) out.old }
{
    packed_value::judge_value(value)?;
    let c = table::column_at(column, 0);
    let v = three::value_at(value, 0);
    value_write::write_value(c, v, buffer, out)
}

// The value under the column, at the front of the room.
pub fn value_write(column: &[u8; 16], value: &[u64; 3], buffer: &[u8], out: &mut [u8]) -> Counted
    ensures answer { result ≡ counted (wrote (fitted (value_given column.now value.now buffer.now) (length out.old))) }
    ensures room { out.new ≡ room_after (fitted (value_given column.now value.now buffer.now) (length out.old)) out.old }
{
    board_answer::answer(written(column, value, buffer, out))
}

// The value at a place of the row; PLP content is joined at the front of the room.
pub fn value_read(
    column: &[u8; 16],
    row: &[u8],
    at: usize,
    room: &mut [u8],
    value: &mut [u64; 3],
) -> Counted
    ensures answer { result ≡ counted (place (value_at column.now row.now at room.old)) }
    ensures room { room.new ≡ room_at column.now row.now at room.old }
    ensures value { value.new ≡ after (value_at column.now row.now at room.old) value.old }
{
    let c = table::column_at(column, 0);
    let read = value_read::read_value(c, row, Cursor { at }, room);
    match read {
        Ok((found, next)) => {
            let s = slot::slot_of(found);
            *value = [s.kind, s.first, s.second];
            board_answer::at(next.at)
        }
        Err(e) => board_answer::refused(e),
    }
}
