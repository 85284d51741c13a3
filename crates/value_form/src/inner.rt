// Leaves that ask that the rest of a row begins with a value of the family, for the crates of this
// repository: a row was judged before, so nothing is judged here.
ghost use Rattle.std.specs.Prelude.{◌≡◌, false, ◌++◌, ℕ, ◌+◌, ◌<◌, eqb, length, take, drop, Some};
ghost use Rattle.format.specs.Answer.{took};
ghost use Rattle.format.specs.Scalar.{scalar_of, scalar_bytes};
ghost use Rattle.format.specs.Scalar as S;
ghost use Rattle.format.specs.Plp.{plp_mark};
ghost use Rattle.format.specs.Value.{fixed_width, length_byte, content};
ghost use Rattle.value_kind.specs.Told.{kind_told, listed_told, content_kind_told, family_told};
ghost use Rattle.value_form.specs.Told.{form_told, normal_in, IsRead};

use crate::Form;
use content_size::content;
use value_kind::family::{ContentKind, Family};
use value_kind::kinds::{Kind, Listed};
use wire::marks;

// A bit whose byte stands at a place: a byte above 1 is written 1.
fn bit(rest: &[u8], at: usize) -> Form
    requires { at < length rest.now }
    ensures { form_told rest.now result ≡ took (take at rest.now ++ scalar_bytes (scalar_of S.Kind.bit (take 1 (drop at rest.now)))) (at + 1) }
{
    if 1 < rest[at] {
        return Form::Bit(at);
    }
    Form::Same(at + 1)
}

// A value of a fixed width.
fn fixed(k: Kind, rest: &[u8]) -> Form
    requires { (d : ℕ) × IsRead (normal_in d (Some (fixed_width (kind_told k))) rest.now) }
    ensures { (d : ℕ) → form_told rest.now result ≡ normal_in d (Some (fixed_width (kind_told k))) rest.now }
{
    if k == Kind::Bit {
        return bit(rest, 0);
    }
    Form::Same(k.bytes())
}

// A value behind its length byte.
fn length_byte(l: Listed, rest: &[u8]) -> Form
    requires { (d : ℕ) × IsRead (normal_in d (Some (length_byte (listed_told l))) rest.now) }
    ensures { (d : ℕ) → IsRead (normal_in d (Some (length_byte (listed_told l))) rest.now) → form_told rest.now result ≡ normal_in d (Some (length_byte (listed_told l))) rest.now }
{
    let n = rest[0] as usize;
    if n != 1 {
        return Form::Same(1 + n);
    }
    if l.lists(Kind::Bit) {
        return bit(rest, 1);
    }
    Form::Same(2)
}

// Content behind its two length bytes.
fn short(k: ContentKind, declared: u32, rest: &[u8]) -> Form
    requires { (eqb declared plp_mark ≡ false) × IsRead (normal_in declared (Some (content (content_kind_told k))) rest.now) }
    ensures { form_told rest.now result ≡ normal_in declared (Some (content (content_kind_told k))) rest.now }
{
    let n = wire::inner::low_at(rest, 0, 2) as usize;
    if n == marks::SHORT_NULL as usize {
        return Form::Same(2);
    }
    Form::Same(2 + n)
}

// Content in the form that its declared length says.
fn content(k: ContentKind, declared: u32, rest: &[u8]) -> Form
    requires { IsRead (normal_in declared (Some (content (content_kind_told k))) rest.now) }
    ensures { form_told rest.now result ≡ normal_in declared (Some (content (content_kind_told k))) rest.now }
{
    if content::is_plp(declared) {
        let text = k.is_text();
        return Form::Plp(text);
    }
    short(k, declared, rest)
}

// The value that the rest of a row, from its first byte on, begins with.
pub fn form(f: Family, declared: u32, rest: &[u8]) -> Form
    requires { IsRead (normal_in declared (family_told f) rest.now) }
    ensures { form_told rest.now result ≡ normal_in declared (family_told f) rest.now }
{
    match f {
        Family::Fixed(k) => fixed(k, rest),
        Family::LengthByte(l) => length_byte(l, rest),
        Family::Content(k) => content(k, declared, rest),
        Family::NotCarried => Form::Same(0),
    }
}
