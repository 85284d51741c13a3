// Rows under a packed table of columns, values three numbers each: sized, written.

#![tactic(auto)]

ghost use Rattle.std.specs.Prelude.{◌≡◌, length};
ghost use Rattle.format.specs.Answer.{fitted, wrote, room_after};
ghost use Rattle.board_answer.specs.Told.{counted};
ghost use Rattle.board_row.specs.Plain.{row_given};

use board_answer::Counted;

// How many bytes the row takes.
pub fn row_size(table: &[u8], values: &[u64], buffer: &[u8]) -> Counted
    ensures { result ≡ counted (wrote (row_given table.now values.now buffer.now)) }
{
    board_answer::answer(packed_size::size_packed(table, values, buffer))
}

// The row, at the front of the room.
pub fn row_write(table: &[u8], values: &[u64], buffer: &[u8], out: &mut [u8]) -> Counted
    ensures answer { result ≡ counted (wrote (fitted (row_given table.now values.now buffer.now) (length out.old))) }
    ensures room { out.new ≡ room_after (fitted (row_given table.now values.now buffer.now) (length out.old)) out.old }
{
    board_answer::answer(packed_write::write_packed(table, values, buffer, out))
}
