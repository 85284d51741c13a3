// A column's turn under a packed table. For this crate alone.
ghost use Rattle.std.specs.Prelude.{[], ◌*◌, ◌<◌, length, drop};
ghost use Rattle.column_type.specs.Told.{column_told};
ghost use Rattle.value_normal.specs.Runs.{RunFits, RunGrows};
ghost use Rattle.normal_step.specs.Steps.{normal_value};
ghost use Rattle.packed.specs.Made.{column_made, no_name};

use normal_step::inner as turn;
use packed::inner as table_inner;
use value_normal::Run;

// The turn of the column at i. A value whose width the record tells is its own normal form, and only
// lengthens the run.
pub fn normal_at(out: &mut [u8], table: &[u8], i: usize, s: &[u8], run: Run) -> Run
    requires { (16 * i < length table.now)
        × RunFits s.now (length out.old) run (normal_value (column_told [] (column_made (drop (16 * i) table.now) no_name no_name no_name)) (drop run.at s.now)) }
    ensures { RunGrows s.now out.old run (normal_value (column_told [] (column_made (drop (16 * i) table.now) no_name no_name no_name)) (drop run.at s.now)) out.new result }
{
    let at = run.at;
    match plain_look::inner::width_at(table, i, s, at) {
        Some(n) => Run {
            from: run.from,
            at: at + n,
            put: run.put,
        },
        None => turn::normal_on(out, table_inner::column_at(table, i), s, run),
    }
}
