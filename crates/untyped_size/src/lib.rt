// Untyped writing, the size pass: how many bytes a value takes with its own descriptor in front, or
// why it cannot be written.

#![tactic(auto)]

ghost use Rattle.std.specs.Prelude.{◌≡◌, Bool, ◌<◌, leb, length};
ghost use Rattle.lists.specs.Pick.{pick};
ghost use Rattle.format.specs.Answer.{wrote};
ghost use Rattle.format.specs.Plp.{plp_mark};
ghost use Rattle.format.specs.Value.{untyped_length, write_untyped};
ghost use Rattle.wire.specs.Told.{answer_told};
ghost use Rattle.value_kind.specs.Told.{content_kind_told, span_told, value_told};
ghost use Rattle.value_kind.specs.Form.{given_of, short_up_to, untyped_head, untyped_limit};

use content_size::content;
use value_kind::family::ContentKind;
use value_kind::{Span, Value};
use wire::{Refusal, marks};

// The declared length of short content, and up to how many bytes content is short: binary as it is,
// a string by its UTF-8.
const UNTYPED_LENGTH: u32 = 8000;

const UNTYPED_BINARY: usize = 8000;

const UNTYPED_STRING: usize = 4000;

// How many bytes PLP content may have without a type.
const UNTYPED_BOUND: u32 = 2147483647;

// Is content of so many bytes, as they were lent, written in the short form without a type?
pub fn is_short(k: ContentKind, count: usize) -> bool
    ensures { result ≡ leb count (short_up_to (content_kind_told k)) }
{
    match k {
        ContentKind::Binary => count <= UNTYPED_BINARY,
        ContentKind::String => count <= UNTYPED_STRING,
    }
}

// The length that content without a type declares.
pub fn untyped_length(short: bool) -> u64
    ensures { result ≡ pick short untyped_length plp_mark }
{
    let length = if short {
        UNTYPED_LENGTH
    } else {
        marks::PLP_MARK
    };
    u64::from(length)
}

// How many bytes of descriptor stand in front of content without a type.
pub fn untyped_head(k: ContentKind) -> u8
    ensures { (short : Bool) → result ≡ length (untyped_head (content_kind_told k) short) }
{
    match k {
        ContentKind::Binary => 3,
        ContentKind::String => 8,
    }
}

// The bound of content that is written with its own descriptor.
fn untyped_limit(short: bool) -> u32
    ensures { result ≡ untyped_limit short }
{
    if short { UNTYPED_LENGTH } else { UNTYPED_BOUND }
}

// Content with its own descriptor in front: the form goes by the bytes as they were lent.
pub fn untyped_content(k: ContentKind, p: Span, buffer: &[u8]) -> Result<usize, Refusal>
    ensures { answer_told result ≡ wrote (write_untyped (given_of (content_kind_told k) (span_told buffer.now p))) }
{
    let short = is_short(k, p.count);
    content::framed_span(k, p, buffer, untyped_head(k), !short, untyped_limit(short))
}

// How many bytes the value takes with its own descriptor in front, or why it cannot be written.
pub fn untyped_size(v: Value, buffer: &[u8]) -> Result<usize, Refusal>
    ensures { answer_told result ≡ wrote (write_untyped (value_told buffer.now v)) }
{
    match v {
        Value::Null => Ok(1),
        Value::Scalar(s) => Ok(3 + s.kind().bytes()),
        Value::Binary(p) => untyped_content(ContentKind::Binary, p, buffer),
        Value::String(p) => untyped_content(ContentKind::String, p, buffer),
    }
}
