// The listed kind of a width.
ghost use Rattle.std.specs.Prelude.{◌≡◌};
ghost use Rattle.format.specs.Value.{of_width};
ghost use Rattle.value_kind.specs.Told.{listed_told};
ghost use Rattle.value_look.specs.Told.{listed_kind_told};

use value_kind::kinds::{Kind, Listed};

// The kind of a width that the type lists; the integer of width 1 is the unsigned one.
pub fn of_width(l: Listed, n: u8) -> Option<Kind>
    ensures { listed_kind_told result ≡ of_width (listed_told l) n }
{
    match (l, n) {
        (Listed::Integers, 1) => Some(Kind::U8),
        (Listed::Integers, 2) => Some(Kind::I16),
        (Listed::Integers, 4) => Some(Kind::I32),
        (Listed::Integers, 8) => Some(Kind::I64),
        (Listed::Bits, 1) => Some(Kind::Bit),
        (Listed::Floats, 4) => Some(Kind::F32),
        (Listed::Floats, 8) => Some(Kind::F64),
        (Listed::Guids, 16) => Some(Kind::Guid),
        _ => None,
    }
}
