// The steps of the copying pass, for the crates of this repository, each on one column by value.
ghost use Rattle.std.specs.Prelude.{◌≡◌, [], length, drop};
ghost use Rattle.column_type.specs.Told.{column_told};
ghost use Rattle.value_normal.specs.Runs.{RunFits, RunGrows};
ghost use Rattle.normal_step.specs.Told.{normal_told};
ghost use Rattle.normal_step.specs.Steps.{open_of, normal_value};

use column_type::Column;
use cursor::Cursor;
use value_kind::family::Family;
use value_normal::Run;
use wire::Refusal;

// The first run starts at the row's first byte; where the row was refused it holds nothing.
pub fn open_run(fits: Result<(usize, Cursor), Refusal>, cursor: Cursor) -> Run
    ensures { result ≡ open_of (normal_told fits) cursor.at }
{
    match fits {
        Ok(_) => Run {
            from: cursor.at,
            at: cursor.at,
            put: 0,
        },
        Err(_) => Run {
            from: 0,
            at: 0,
            put: 0,
        },
    }
}

// One column's value more. The row was judged, so its rule is kept; its names are not looked at.
pub fn normal_on(out: &mut [u8], c: Column, s: &[u8], run: Run) -> Run
    requires { RunFits s.now (length out.old) run (normal_value (column_told [] c) (drop run.at s.now)) }
    ensures { RunGrows s.now out.old run (normal_value (column_told [] c) (drop run.at s.now)) out.new result }
{
    let ty = c.ty;
    value_normal::inner::normal_in(out, Family::from(ty), c.length as u32, s, run)
}
