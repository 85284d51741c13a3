// The turns of the filling pass, for the crates of this repository: one value into the unused rest of
// the room.
ghost use Rattle.std.specs.Prelude.{◌≡◌, ◌+◌, ◌*◌, ◌<◌, ◌≤◌, length};
ghost use Rattle.lists.specs.Put.{put_at};
ghost use Rattle.plain_write.specs.Bytes.{written_at};
ghost use Rattle.row_step.specs.Steps.{FitsAt, bytes_in};

use packed_value::{Slot, inner as value};
use row_step::inner as turn;

// One value more, the column and the value made. It hands back the next unused place.
fn fill_made(
    out: &mut [u8],
    table: &[u8],
    values: &[u64],
    buffer: &[u8],
    i: usize,
    at: usize,
) -> usize
    requires { (16 * i < length table.now) × (3 * i + 3 ≤ length values.now)
        × FitsAt (written_at table.now values.now buffer.now i) at (length out.old) }
    ensures { (result ≡ at + length (bytes_in (written_at table.now values.now buffer.now i)))
        × (out.new ≡ put_at out.old at (bytes_in (written_at table.now values.now buffer.now i))) }
{
    let c = packed::inner::column_at(table, i);
    let v = value::value_at(values, i);
    turn::fill_on(out, c, v, buffer, at)
}

// The same, by the numbers alone where they tell the bytes.
pub fn fill_at(
    out: &mut [u8],
    table: &[u8],
    values: &[u64],
    buffer: &[u8],
    i: usize,
    at: usize,
) -> usize
    requires { (16 * i < length table.now) × (3 * i + 3 ≤ length values.now)
        × FitsAt (written_at table.now values.now buffer.now i) at (length out.old) }
    ensures { (result ≡ at + length (bytes_in (written_at table.now values.now buffer.now i)))
        × (out.new ≡ put_at out.old at (bytes_in (written_at table.now values.now buffer.now i))) }
{
    let v = Slot::at(values, 3 * i);
    match plain_write::inner::plain_at(table, i, v.kind) {
        Some((p, n)) => {
            plain_write::inner::put_in(out, at, Some(p), v);
            at + n
        }
        None => fill_made(out, table, values, buffer, i, at),
    }
}
