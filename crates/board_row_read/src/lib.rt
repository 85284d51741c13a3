// Rows read under a packed table of columns: what a row needs, its values three numbers each, its
// normal form.

#![tactic(auto)]

ghost use Rattle.std.specs.Prelude.{◌≡◌};
ghost use Rattle.board_answer.specs.Told.{counted, place, after};
ghost use Rattle.board_row_read.specs.Plain.{needs_at, row_at, row_room, row_values, normal_at, written, normal_room, ends};

use board_answer::Counted;
use cursor::Cursor;

// What the row at a place needs: the bytes of room that reading takes, the bytes of the normal form.
pub fn row_needs(table: &[u8], row: &[u8], at: usize, needs: &mut [u64; 2]) -> Counted
    ensures answer { result ≡ counted (place (needs_at table.now row.now at)) }
    ensures room { needs.new ≡ after (needs_at table.now row.now at) needs.old }
{
    let judged = packed_judge::judge_packed(table, row, Cursor { at });
    match judged {
        Ok(n) => {
            *needs = [n.joined as u64, n.normal as u64];
            board_answer::at(n.next.at)
        }
        Err(e) => board_answer::refused(e),
    }
}

// The row at a place: three numbers for each value, at the front of the list; PLP content is joined
// in the room.
pub fn row_read(table: &[u8], row: &[u8], at: usize, room: &mut [u8], values: &mut [u64]) -> Counted
    ensures answer { result ≡ counted (place (row_at table.now row.now at room.old values.old)) }
    ensures room { room.new ≡ row_room table.now row.now at room.old values.old }
    ensures values { values.new ≡ row_values table.now row.now at room.old values.old }
{
    let read = packed_read::read_packed(table, row, Cursor { at }, room, values);
    match read {
        Ok(n) => board_answer::at(n.next.at),
        Err(e) => board_answer::refused(e),
    }
}

// The normal form of the row at a place, at the front of the room, and where the row ends.
pub fn row_normal(table: &[u8], row: &[u8], at: usize, out: &mut [u8], next: &mut u64) -> Counted
    ensures answer { result ≡ counted (written (normal_at table.now row.now at out.old)) }
    ensures room { out.new ≡ normal_room table.now row.now at out.old }
    ensures next { next.new ≡ ends (normal_at table.now row.now at out.old) next.old }
{
    let form = packed_normal::normal_packed(table, row, Cursor { at }, out);
    match form {
        Ok((n, behind)) => {
            *next = behind.at as u64;
            board_answer::count(n as u64)
        }
        Err(e) => board_answer::refused(e),
    }
}
