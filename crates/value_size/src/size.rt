// The size pass: how many bytes a value takes, or the first refusal but 4. It copies nothing.
ghost use Rattle.std.specs.Prelude.{◌≡◌, not, ◌+◌, ltb};
ghost use Rattle.format.specs.Answer.{gives, kind, long, refuse_if, wrote};
ghost use Rattle.format.specs.Scalar.{width, same_kind, is_one_of};
ghost use Rattle.format.specs.Value.{Given, write_family};
ghost use Rattle.wire.specs.Told.{answer_told};
ghost use Rattle.value_kind.specs.Told.{kind_told, listed_told, family_told, scalar_told, value_told};

use content_size::content;
use value_kind::family::{ContentKind, Family};
use value_kind::kinds::{Kind, Listed};
use value_kind::{Scalar, Value};
use wire::Refusal;

// Null under a family.
fn null(f: Family, declared: u32) -> Result<usize, Refusal>
    ensures { answer_told result ≡ wrote (write_family declared (family_told f) Given.null) }
{
    match f {
        Family::Fixed(_) => Err(Refusal::Kind),
        Family::LengthByte(_) => Ok(1),
        Family::Content(_) => {
            if content::is_plp(declared) {
                return Ok(8);
            }
            Ok(2)
        }
        Family::NotCarried => Err(Refusal::NotCarried),
    }
}

// A value of a kind under a fixed type of another or of the same kind.
fn fixed(wanted: Kind, k: Kind) -> Result<usize, Refusal>
    ensures { answer_told result ≡ refuse_if (not (same_kind (kind_told k) (kind_told wanted))) kind (gives (width (kind_told k))) }
{
    if k == wanted {
        return Ok(k.bytes());
    }
    Err(Refusal::Kind)
}

// A value of a kind behind a length byte.
fn listed(l: Listed, declared: u32, k: Kind) -> Result<usize, Refusal>
    ensures { answer_told result ≡ refuse_if (not (is_one_of (listed_told l) (kind_told k))) kind (refuse_if (ltb declared (width (kind_told k))) long (gives (1 + width (kind_told k)))) }
{
    if l.lists(k) {
        let n = k.bytes();
        if (declared as usize) < n {
            return Err(Refusal::Long);
        }
        return Ok(1 + n);
    }
    Err(Refusal::Kind)
}

// A value of a fixed width under a family.
fn scalar(f: Family, declared: u32, s: Scalar) -> Result<usize, Refusal>
    ensures { answer_told result ≡ wrote (write_family declared (family_told f) (Given.scalar (scalar_told s))) }
{
    match f {
        Family::Fixed(wanted) => fixed(wanted, s.kind()),
        Family::LengthByte(l) => listed(l, declared, s.kind()),
        Family::Content(_) => Err(Refusal::Kind),
        Family::NotCarried => Err(Refusal::NotCarried),
    }
}

// A value under a family.
pub fn in_family(f: Family, declared: u32, v: Value, buffer: &[u8]) -> Result<usize, Refusal>
    ensures { answer_told result ≡ wrote (write_family declared (family_told f) (value_told buffer.now v)) }
{
    match v {
        Value::Null => null(f, declared),
        Value::Scalar(s) => scalar(f, declared, s),
        Value::Binary(p) => content::content(f, declared, ContentKind::Binary, p, buffer),
        Value::String(p) => content::content(f, declared, ContentKind::String, p, buffer),
    }
}
