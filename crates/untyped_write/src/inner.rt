// The writing pass. It fills the room that it is lent to its last byte, and cannot fail: a caller
// lends as many bytes as the size pass found. For this crate alone.
ghost use Rattle.std.specs.Prelude.{◌≡◌, ◌≤◌, length};
ghost use Rattle.std.proofs.lemmas.List.Edits.{sets};
ghost use Rattle.format.specs.Answer.{gives, wrote};
ghost use Rattle.format.specs.Value.{Given, write_untyped};
ghost use Rattle.value_kind.specs.Told.{content_kind_told, scalar_told, span_told, value_told};
ghost use Rattle.value_kind.specs.Form.{given_of, untyped_head};

use column_type::{FixedLen, UShortLen};
use value_kind::family::ContentKind;
use value_kind::{Scalar, Span, Value};

// A value of a fixed width behind its type byte and its length, which is its width.
fn fill_untyped_scalar(s: Scalar, out: &mut [u8])
    requires { gives (length out.old) ≡ wrote (write_untyped (Given.scalar (scalar_told s))) }
    ensures { gives out.new ≡ write_untyped (Given.scalar (scalar_told s)) }
{
    let k = s.kind();
    let n = k.bytes() as u8;
    wire::inner::put_byte(out, 0, u8::from(k.untyped_type()));
    wire::inner::put_byte(out, 1, n);
    wire::inner::put_byte(out, 2, n);
    value_fill::inner::put_scalar(out, 3, s);
}

// The descriptor in front of content: type byte, declared length, and a string's collation.
fn write_head(k: ContentKind, short: bool, out: &mut [u8])
    requires { length (untyped_head (content_kind_told k) short) ≤ length out.old }
    ensures { out.new ≡ sets out.old 0 (untyped_head (content_kind_told k) short) }
{
    let declared = untyped_size::untyped_length(short);
    match k {
        ContentKind::Binary => {
            wire::inner::put_byte(out, 0, u8::from(UShortLen::BigVarBin));
            wire::inner::put_low(out, 1, declared, 2);
        }
        ContentKind::String => {
            wire::inner::put_byte(out, 0, u8::from(UShortLen::NVarchar));
            wire::inner::put_low(out, 1, declared, 2);
            wire::inner::put_low(out, 3, 0, 5);
        }
    }
}

// The content of a span of the buffer behind its own descriptor.
fn fill_untyped_content(k: ContentKind, p: Span, buffer: &[u8], out: &mut [u8])
    requires { gives (length out.old) ≡ wrote (write_untyped (given_of (content_kind_told k) (span_told buffer.now p))) }
    ensures { gives out.new ≡ write_untyped (given_of (content_kind_told k) (span_told buffer.now p)) }
{
    let short = untyped_size::is_short(k, p.count);
    write_head(k, short, out);
    let head = untyped_size::untyped_head(k) as usize;
    value_fill::inner::fill_span(k, p, buffer, !short, &mut out[head..]);
}

// A value behind its own descriptor.
pub fn fill_untyped(v: Value, buffer: &[u8], out: &mut [u8])
    requires { gives (length out.old) ≡ wrote (write_untyped (value_told buffer.now v)) }
    ensures { gives out.new ≡ write_untyped (value_told buffer.now v) }
{
    match v {
        Value::Null => wire::inner::put_byte(out, 0, u8::from(FixedLen::Null)),
        Value::Scalar(s) => fill_untyped_scalar(s, out),
        Value::Binary(p) => fill_untyped_content(ContentKind::Binary, p, buffer, out),
        Value::String(p) => fill_untyped_content(ContentKind::String, p, buffer, out),
    }
}
