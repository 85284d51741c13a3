// The steps of judging a row, for the crates of this repository, each on one column by value.
ghost use Rattle.std.specs.Prelude.{◌≡◌, List, ℕ, length, Ok};
ghost use Rattle.column_type.specs.Told.{column_told};
ghost use Rattle.judge_step.specs.Told.{row_judged_told};
ghost use Rattle.judge_step.specs.Steps.{start_of, judge_on, Inside};

use crate::RowNeeds;
use column_type::Column;
use cursor::Cursor;
use value_kind::family::Family;
use wire::Refusal;

// What a row needs before its first value, where the place and the number of columns are let through.
pub fn start(columns: usize, size: usize, cursor: Cursor) -> Result<RowNeeds, Refusal>
    ensures { row_judged_told result ≡ start_of columns size cursor.at }
{
    if size < cursor.at {
        return Err(Refusal::Missing);
    }
    if 1024 < columns {
        return Err(Refusal::Rule);
    }
    Ok(RowNeeds {
        next: cursor,
        joined: 0,
        normal: 0,
    })
}

// One value more, behind those before it.
fn behind(c: Column, s: &[u8], row: RowNeeds) -> Result<RowNeeds, Refusal>
    requires { Inside (length s.now) (row_judged_told (Ok row)) }
    ensures told { (b : List ℕ) → row_judged_told result ≡ judge_on (column_told b c) s.now (row_judged_told (Ok row)) }
    ensures inside { Inside (length s.now) (row_judged_told result) }
{
    let at = row.next.at;
    if column_rule::keeps_rule(c) {
        let ty = c.ty;
        let (n, joined, normal) = value_weigh::weigh(Family::from(ty), c.length as u32, &s[at..])?;
        return Ok(RowNeeds {
            next: Cursor { at: at + n },
            joined: row.joined + joined,
            normal: row.normal + normal,
        });
    }
    Err(Refusal::Rule)
}

// One column's turn. A refused row stays refused.
pub fn judge_on(c: Column, s: &[u8], state: Result<RowNeeds, Refusal>) -> Result<RowNeeds, Refusal>
    requires { Inside (length s.now) (row_judged_told state) }
    ensures told { (b : List ℕ) → row_judged_told result ≡ judge_on (column_told b c) s.now (row_judged_told state) }
    ensures inside { Inside (length s.now) (row_judged_told result) }
{
    match state {
        Ok(row) => behind(c, s, row),
        Err(e) => Err(e),
    }
}
