// The columns of a capture: descriptors one behind another, held in an array.

#![tactic(auto)]

ghost use Rattle.std.specs.Prelude.{◌≡◌, ltb};
ghost use Rattle.format.specs.Answer.{rule, stop_if, read_at};
ghost use Rattle.format.specs.Row.{max_columns, read_columns};
ghost use Rattle.capture_columns.specs.Told.{columns_read_told, StopsAt};

use column_type::{Column, TypeId};
use wire::{Cursor, Refusal};

// As many columns as the capture says it has, at the front of the list, and where their descriptors
// end.
#[derive(Clone, Copy)]
pub struct CaptureColumns {
    pub list: [Column; 1024],
    pub end: Cursor,
}

// Why one of the descriptors is none, how many were read before it, and where it begins.
#[derive(Clone, Copy)]
pub struct ColumnRefused {
    pub refusal: Refusal,
    pub before: usize,
    pub at: Cursor,
}

// As many columns as the capture says it has.
pub fn read_columns(s: &[u8], cursor: Cursor, count: usize) -> Result<CaptureColumns, ColumnRefused>
    ensures told { columns_read_told s.now count result ≡ stop_if (ltb max_columns count) rule (read_at (read_columns count) s.now cursor.at) }
    ensures stop { StopsAt s.now count cursor.at result }
{
    if 1024 < count {
        return Err(ColumnRefused {
            refusal: Refusal::Rule,
            before: 0, // the count is judged before any column
            at: cursor,
        });
    }
    if s.len() < cursor.at {
        return Err(ColumnRefused {
            refusal: Refusal::Missing,
            before: 0,
            at: cursor,
        });
    }
    let mut list = [column_type::plain(TypeId::Xml, 0); 1024];
    let mut at = cursor;
    for i in 0..count {
        match column_read::read_column(s, at) {
            Ok((c, next)) => {
                list[i] = c;
                at = next;
            }
            Err(refusal) => {
                return Err(ColumnRefused {
                    refusal,
                    before: i,
                    at,
                });
            }
        }
    }
    Ok(CaptureColumns { list, end: at })
}
