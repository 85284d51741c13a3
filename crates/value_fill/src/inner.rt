// The writing pass, for the crates of this repository. It fills the room that it is lent to its last
// byte, and cannot fail: a caller lends as many bytes as the size pass found. Empty arms are those
// that the size pass has refused.
ghost use Rattle.std.specs.Prelude.{◌≡◌, true, ◌+◌, ◌≤◌, length};
ghost use Rattle.std.proofs.lemmas.List.Edits.{sets};
ghost use Rattle.format.specs.Answer.{gives, wrote};
ghost use Rattle.format.specs.Scalar.{width, kind_of, scalar_bytes};
ghost use Rattle.format.specs.Value.{Given, write_family};
ghost use Rattle.value_kind.specs.Told.{content_kind_told, family_told, scalar_told, span_told, value_told};
ghost use Rattle.value_kind.specs.Form.{encoded, encoded_part, in_form};

use content_size::content;
use value_kind::family::{ContentKind, Family};
use value_kind::{Scalar, Span, Value};
use wire::marks;

// The value's bytes from at.
pub fn put_scalar(out: &mut [u8], at: usize, s: Scalar)
    requires { at + width (kind_of (scalar_told s)) ≤ length out.old }
    ensures { out.new ≡ sets out.old at (scalar_bytes (scalar_told s)) }
{
    if let Scalar::Guid(g) = s {
        guid::inner::put_guid(out, at, g);
        return;
    }
    wire::inner::put_low(out, at, s.number(), s.kind().bytes());
}

// Null under a family that has one.
fn fill_null(f: Family, declared: u32, out: &mut [u8])
    requires { gives (length out.old) ≡ wrote (write_family declared (family_told f) Given.null) }
    ensures { gives out.new ≡ write_family declared (family_told f) Given.null }
{
    match f {
        Family::Fixed(_) => {}
        Family::LengthByte(_) => wire::inner::put_byte(out, 0, 0),
        Family::Content(_) => {
            if content::is_plp(declared) {
                wire::inner::put_low(out, 0, marks::PLP_NULL, 8);
                return;
            }
            wire::inner::put_low(out, 0, marks::SHORT_NULL, 2);
        }
        Family::NotCarried => {}
    }
}

// A value of a fixed width under a family that lists it.
fn fill_scalar(f: Family, declared: u32, s: Scalar, out: &mut [u8])
    requires { gives (length out.old) ≡ wrote (write_family declared (family_told f) (Given.scalar (scalar_told s))) }
    ensures { gives out.new ≡ write_family declared (family_told f) (Given.scalar (scalar_told s)) }
{
    match f {
        Family::Fixed(_) => put_scalar(out, 0, s),
        Family::LengthByte(_) => {
            wire::inner::put_byte(out, 0, s.kind().bytes() as u8);
            put_scalar(out, 1, s);
        }
        Family::Content(_) => {}
        Family::NotCarried => {}
    }
}

// The content bytes: binary as it is, a string in UTF-16LE.
fn fill_content(k: ContentKind, s: &[u8], out: &mut [u8])
    requires { gives (length out.old) ≡ wrote (encoded (content_kind_told k) s.now) }
    ensures { gives out.new ≡ encoded (content_kind_told k) s.now }
{
    match k {
        ContentKind::Binary => wire::inner::copy(s, out),
        ContentKind::String => text_put::inner::write_utf16(s, out),
    }
}

// Unknown length, one chunk, and the last zero; empty content is the zero alone.
fn fill_plp(k: ContentKind, s: &[u8], out: &mut [u8])
    requires { gives (length out.old) ≡ wrote (in_form true (encoded (content_kind_told k) s.now)) }
    ensures { gives out.new ≡ in_form true (encoded (content_kind_told k) s.now) }
{
    let end = plp_frame::inner::put_frame(out);
    fill_content(k, s, &mut out[12..end]);
}

// Content in its form.
fn fill_form(k: ContentKind, s: &[u8], plp: bool, out: &mut [u8])
    requires { gives (length out.old) ≡ wrote (in_form plp (encoded (content_kind_told k) s.now)) }
    ensures { gives out.new ≡ in_form plp (encoded (content_kind_told k) s.now) }
{
    if plp {
        fill_plp(k, s, out);
        return;
    }
    let n = out.len() - 2;
    wire::inner::put_low(out, 0, n as u64, 2);
    fill_content(k, s, &mut out[2..]);
}

// The content of a span of the buffer in its form.
pub fn fill_span(k: ContentKind, p: Span, buffer: &[u8], plp: bool, out: &mut [u8])
    requires { gives (length out.old) ≡ wrote (in_form plp (encoded_part (content_kind_told k) (span_told buffer.now p))) }
    ensures { gives out.new ≡ in_form plp (encoded_part (content_kind_told k) (span_told buffer.now p)) }
{
    let start = p.start;
    let count = p.count;
    fill_form(k, &buffer[start..start + count], plp, out);
}

// A value under a family.
pub fn fill(f: Family, declared: u32, v: Value, buffer: &[u8], out: &mut [u8])
    requires { gives (length out.old) ≡ wrote (write_family declared (family_told f) (value_told buffer.now v)) }
    ensures { gives out.new ≡ write_family declared (family_told f) (value_told buffer.now v) }
{
    let plp = content::is_plp(declared);
    match v {
        Value::Null => fill_null(f, declared, out),
        Value::Scalar(s) => fill_scalar(f, declared, s, out),
        Value::Binary(p) => fill_span(ContentKind::Binary, p, buffer, plp, out),
        Value::String(p) => fill_span(ContentKind::String, p, buffer, plp, out),
    }
}
