// The value whose bytes stand at a place that lies inside, for the crates of this repository.
ghost use Rattle.std.specs.Prelude.{◌≡◌, ◌+◌, ◌≤◌, length, take, drop};
ghost use Rattle.format.specs.Scalar.{width, scalar_of};
ghost use Rattle.value_kind.specs.Told.{kind_told, scalar_told, Canonical};

use bits::float::{Float32, Float64};
use bits::signed;
use value_kind::Scalar;
use value_kind::kinds::Kind;
use wire::inner;

// The value of the kind whose bytes stand at `at`.
pub fn scalar_at(k: Kind, s: &[u8], at: usize) -> Scalar
    requires { at + width (kind_told k) ≤ length s.now }
    ensures told { scalar_told result ≡ scalar_of (kind_told k) (take (width (kind_told k)) (drop at s.now)) }
    ensures canonical { Canonical result }
{
    match k {
        Kind::Bit => Scalar::Bit(inner::low_at(s, at, 1) != 0), // any other number is true
        Kind::U8 => Scalar::U8(inner::low_at(s, at, 1) as u8),
        Kind::I16 => Scalar::I16(signed::to_i16(inner::low_at(s, at, 2) as u16)),
        Kind::I32 => Scalar::I32(signed::to_i32(inner::low_at(s, at, 4) as u32)),
        Kind::I64 => Scalar::I64(signed::to_i64(inner::low_at(s, at, 8))),
        Kind::F32 => Scalar::from(Float32::from(inner::low_at(s, at, 4) as u32)),
        Kind::F64 => Scalar::from(Float64::from(inner::low_at(s, at, 8))),
        Kind::Guid => Scalar::Guid(inner::guid_at(s, at)),
    }
}
