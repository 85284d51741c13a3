// What the rest of a row begins with under a column's family: numbers only, no value is made.

#![tactic(auto)]

mod listed;

ghost use Rattle.std.specs.Prelude.{◌≡◌, false, ℕ, eqb, drop, Some};
ghost use Rattle.format.specs.Answer.{further, then_read, map_read};
ghost use Rattle.format.specs.Number.{read_low};
ghost use Rattle.format.specs.Scalar.{read_scalar};
ghost use Rattle.format.specs.Plp.{plp_mark};
ghost use Rattle.format.specs.Value.{Value, length_byte, content, read_short, read_family};
ghost use Rattle.value_kind.specs.Told.{kind_told, listed_told, content_kind_told, family_told};
ghost use Rattle.value_look.specs.Told.{seen_told, Lies};

use content_size::content;
use value_kind::family::{ContentKind, Family};
use value_kind::kinds::{Kind, Listed};
use wire::{Refusal, marks};

// A null of so many bytes; a kind and where its bytes start; content of a kind, where it starts and
// how many bytes it has; or PLP content. Places count from the value's first byte.
#[derive(Clone, Copy)]
pub enum Seen {
    Null(usize),
    Scalar(Kind, usize),
    Part(ContentKind, usize, usize),
    Plp(ContentKind),
}

// A value of the kind from a place on.
fn scalar(k: Kind, rest: &[u8], at: usize) -> Result<Seen, Refusal>
    ensures told { seen_told rest.now result ≡ further at (map_read Value.scalar (read_scalar (kind_told k) (drop at rest.now))) }
    ensures lies { (d : ℕ) → Lies d rest.now result }
{
    if wire::inside(rest, at, k.bytes()) {
        return Ok(Seen::Scalar(k, at));
    }
    Err(Refusal::Missing)
}

// A value behind its length byte: 0 is null, any other must be the width of a listed kind, and no
// more than the declared length.
fn length_byte(l: Listed, declared: u32, rest: &[u8]) -> Result<Seen, Refusal>
    ensures told { seen_told rest.now result ≡ read_family declared (Some (length_byte (listed_told l))) rest.now }
    ensures lies { Lies declared rest.now result }
{
    if rest.is_empty() {
        return Err(Refusal::Missing);
    }
    let n = rest[0];
    if n == 0 {
        return Ok(Seen::Null(1));
    }
    match listed::of_width(l, n) {
        Some(k) => {
            if declared < n as u32 {
                return Err(Refusal::Long);
            }
            scalar(k, rest, 1)
        }
        None => Err(Refusal::Sequence),
    }
}

// Content behind its two length bytes.
fn short(k: ContentKind, declared: u32, rest: &[u8]) -> Result<Seen, Refusal>
    ensures told { seen_told rest.now result ≡ then_read (read_low 2) (read_short (content_kind_told k) declared) rest.now }
    ensures lies { eqb declared plp_mark ≡ false → Lies declared rest.now result }
{
    if rest.len() < 2 {
        return Err(Refusal::Missing);
    }
    let n = wire::inner::low_at(rest, 0, 2) as usize;
    if n == marks::SHORT_NULL as usize {
        return Ok(Seen::Null(2));
    }
    if (declared as usize) < n {
        return Err(Refusal::Long);
    }
    if plp_rule::is_odd(k.is_text(), n as u64) {
        return Err(Refusal::Sequence);
    }
    if rest.len() - 2 < n {
        return Err(Refusal::Missing);
    }
    Ok(Seen::Part(k, 2, n))
}

// Content in the form that its declared length says.
fn content(k: ContentKind, declared: u32, rest: &[u8]) -> Result<Seen, Refusal>
    ensures told { seen_told rest.now result ≡ read_family declared (Some (content (content_kind_told k))) rest.now }
    ensures lies { Lies declared rest.now result }
{
    if content::is_plp(declared) {
        return Ok(Seen::Plp(k));
    }
    short(k, declared, rest)
}

// What the rest of the row, from the value's first byte, begins with.
pub fn look(f: Family, declared: u32, rest: &[u8]) -> Result<Seen, Refusal>
    ensures told { seen_told rest.now result ≡ read_family declared (family_told f) rest.now }
    ensures lies { Lies declared rest.now result }
{
    match f {
        Family::Fixed(k) => scalar(k, rest, 0),
        Family::LengthByte(l) => length_byte(l, declared, rest),
        Family::Content(k) => content(k, declared, rest),
        Family::NotCarried => Err(Refusal::NotCarried),
    }
}
