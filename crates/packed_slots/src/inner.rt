// The pass that takes a row's values, for the crates of this repository: their numbers go into a list,
// PLP content into a room. The row was judged before, so that nothing is refused.
ghost use Rattle.std.specs.Prelude.{◌≡◌, List, ◌++◌, ℕ, ◌+◌, ◌*◌, ◌≤◌, ◌<◌, length, drop};
ghost use Rattle.lists.specs.Put.{put_at};
ghost use Rattle.format.specs.Answer.{read_at, room_after_read};
ghost use Rattle.format.specs.Value.{read_value};
ghost use Rattle.format.specs.Row.{read_values, copied_out_row};
ghost use Rattle.format.specs.Found.{found_row};
ghost use Rattle.column_type.specs.Told.{column_told};
ghost use Rattle.read_step.specs.Told.{place_told};
ghost use Rattle.read_step.specs.Steps.{FitsAt};
ghost use Rattle.packed.specs.Packed.{column_of, no_names, table_columns};
ghost use Rattle.packed_slot.specs.Slots.{slot_told, slots_of};
ghost use Rattle.packed_slots.specs.Steps.{Taken, Readable};

use column_type::Column;
use cursor::Cursor;
use packed::inner as table_inner;
use packed_slot::inner as slot;
use packed_value::Slot;
use read_step::inner as turn;
use row_place::RowPlace;

// Three numbers at a place.
fn store(values: &mut [u64], at: usize, slot: Slot)
    requires { at + 3 ≤ length values.old }
    ensures { values.new ≡ put_at values.old at (slot_told slot) }
{
    values[at] = slot.kind;
    values[at + 1] = slot.first;
    values[at + 2] = slot.second;
}

// The value of a column that was made, its numbers put down at a place. It hands back the next
// value's place.
fn take_value(
    out: &mut [u8],
    values: &mut [u64],
    at: usize,
    c: Column,
    s: &[u8],
    place: RowPlace,
) -> RowPlace
    requires { (at + 3 ≤ length values.old)
        × ((b : List ℕ) → FitsAt (column_told b c) (read_at (read_value (column_told b c)) s.now place.cursor.at) place.copied (length out.old)) }
    ensures { (b : List ℕ) → Taken (column_told b c) (read_at (read_value (column_told b c)) s.now place.cursor.at) (place_told place) at values.old out.old values.new out.new (place_told result) }
{
    let v = turn::take_on(out, c, s, place);
    match v {
        Ok((found, next)) => {
            store(values, at, slot::slot_of(found));
            next
        }
        Err(_) => place,
    }
}

// The value of the column at i. Where the record tells the value's width, the column is not made.
fn take_at(
    out: &mut [u8],
    values: &mut [u64],
    table: &[u8],
    i: usize,
    s: &[u8],
    place: RowPlace,
) -> RowPlace
    requires { (16 * i < length table.now) × (3 * i + 3 ≤ length values.old) × (place.cursor.at ≤ length s.now)
        × FitsAt (column_of (drop (16 * i) table.now) no_names) (read_at (read_value (column_of (drop (16 * i) table.now) no_names)) s.now place.cursor.at) place.copied (length out.old) }
    ensures { Taken (column_of (drop (16 * i) table.now) no_names) (read_at (read_value (column_of (drop (16 * i) table.now) no_names)) s.now place.cursor.at) (place_told place) (3 * i) values.old out.old values.new out.new (place_told result) }
{
    let at = place.cursor.at;
    match plain_look::inner::look_at(table, i, s, at) {
        Some((p, n)) => {
            store(values, 3 * i, plain_slot::inner::slot_in(Some(p), s, at));
            RowPlace {
                cursor: Cursor { at: at + n },
                copied: place.copied,
            }
        }
        None => take_value(
            out,
            values,
            3 * i,
            table_inner::column_at(table, i),
            s,
            place,
        ),
    }
}

// The values of a row: their numbers at the front of the list, content at the front of the room.
pub fn take_values(out: &mut [u8], values: &mut [u64], table: &[u8], s: &[u8], cursor: Cursor)
    requires { Readable (length out.old) (table_columns table.now) (read_at (read_values (table_columns table.now)) s.now cursor.at)
        × (3 * length (table_columns table.now) ≤ length values.old) }
    ensures room { out.new ≡ room_after_read (copied_out_row (table_columns table.now)) (read_at (read_values (table_columns table.now)) s.now cursor.at) out.old }
    ensures numbers { values.new ≡ slots_of (found_row (table_columns table.now) s.now cursor.at 0) ++ drop (3 * length (table_columns table.now)) values.old }
{
    let n = packed::records(table);
    let mut place = RowPlace { cursor, copied: 0 };
    for i in 0..n {
        place = take_at(out, values, table, i, s, place);
    }
}
