// Binary and string content along one path, with and without a type: within a bound, in the short
// or the PLP form, behind a head.
ghost use Rattle.std.specs.Prelude.{◌≡◌, List, ℕ, ◌<◌, eqb, length};
ghost use Rattle.format.specs.Answer.{and_then, wrote};
ghost use Rattle.format.specs.Plp.{plp_mark};
ghost use Rattle.format.specs.Value.{content_bound, write_family};
ghost use Rattle.wire.specs.Told.{answer_told};
ghost use Rattle.value_kind.specs.Told.{content_kind_told, family_told, span_told};
ghost use Rattle.value_kind.specs.Form.{given_of, encoded, encoded_part, formed, framed};

use value_kind::Span;
use value_kind::family::{ContentKind, Family};
use wire::{Refusal, marks};

// The content bytes: binary as it is, a string in UTF-16LE.
fn encoded(k: ContentKind, s: &[u8]) -> Result<usize, Refusal>
    ensures { answer_told result ≡ wrote (encoded (content_kind_told k) s.now) }
{
    match k {
        ContentKind::Binary => Ok(s.len()),
        ContentKind::String => text::utf16_size(s),
    }
}

// Content of n bytes in its form: PLP of none is the two marks alone.
pub fn formed(plp: bool, n: u32) -> usize
    ensures { ((c : List ℕ) → length c ≡ n → result ≡ length (formed plp c)) × (result < 4294967312) }
{
    if plp {
        if n == 0 {
            return 12;
        }
        return 16 + n as usize;
    }
    2 + n as usize
}

// Content within a bound, in its form, behind a head of so many bytes.
fn framed(k: ContentKind, s: &[u8], head: u8, plp: bool, bound: u32) -> Result<usize, Refusal>
    ensures { (h : List ℕ) → length h ≡ head → answer_told result ≡ wrote (and_then (encoded (content_kind_told k) s.now) (framed h plp bound)) }
{
    let n = encoded(k, s)?;
    if (bound as usize) < n {
        return Err(Refusal::Long);
    }
    Ok(head as usize + formed(plp, n as u32))
}

// The same of a span, which must lie in the buffer.
pub fn framed_span(
    k: ContentKind,
    p: Span,
    buffer: &[u8],
    head: u8,
    plp: bool,
    bound: u32,
) -> Result<usize, Refusal>
    ensures { (h : List ℕ) → length h ≡ head → answer_told result ≡ wrote (and_then (encoded_part (content_kind_told k) (span_told buffer.now p)) (framed h plp bound)) }
{
    let start = p.start;
    let count = p.count;
    if wire::inside(buffer, start, count) {
        return framed(k, &buffer[start..start + count], head, plp, bound);
    }
    Err(Refusal::Missing)
}

// Is content of that declared length PLP?
pub fn is_plp(declared: u32) -> bool
    ensures { result ≡ eqb declared plp_mark }
{
    declared == marks::PLP_MARK
}

// The bound of content under a declared length.
fn content_bound(declared: u32) -> u32
    ensures { result ≡ content_bound declared }
{
    if is_plp(declared) {
        return marks::PLP_BOUND;
    }
    declared
}

// Content under a family.
pub fn content(
    f: Family,
    declared: u32,
    k: ContentKind,
    p: Span,
    buffer: &[u8],
) -> Result<usize, Refusal>
    ensures { answer_told result ≡ wrote (write_family declared (family_told f) (given_of (content_kind_told k) (span_told buffer.now p))) }
{
    match f {
        Family::Fixed(_) | Family::LengthByte(_) => Err(Refusal::Kind),
        Family::Content(wanted) => {
            if wanted != k {
                return Err(Refusal::Kind);
            }
            framed_span(k, p, buffer, 0, is_plp(declared), content_bound(declared))
        }
        Family::NotCarried => Err(Refusal::NotCarried),
    }
}
