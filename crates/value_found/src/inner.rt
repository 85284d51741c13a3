// A value in the rest of a row, for the crates of this repository: it takes what it needs of the
// column, not the record, which would be copied at every call, and the room behind what was copied
// before.
ghost use Rattle.std.specs.Prelude.{◌≡◌, true, ◌+◌, ◌≤◌, length};
ghost use Rattle.format.specs.Descriptor as D;
ghost use Rattle.format.specs.Value.{read_family, is_plp};
ghost use Rattle.value_kind.specs.Told.{content_kind_told, family_told};
ghost use Rattle.value_found.specs.Told.{stand_told, found_told, content_found, value_read_told, CanonicalFound, CanonicalRead};
ghost use Rattle.value_found.specs.Told.{plp_value, found_behind, room_behind};

use crate::{Found, Stand};
use value_kind::Span;
use value_kind::family::{ContentKind, Family};
use value_look::Seen;
use wire::{Cursor, Refusal};

// Content of a kind by where it stands.
pub fn content_found(k: ContentKind, p: Stand) -> Found
    ensures told { found_told result ≡ content_found (content_kind_told k) (stand_told p) }
    ensures canonical { CanonicalFound result }
{
    match k {
        ContentKind::Binary => Found::Binary(p),
        ContentKind::String => Found::String(p),
    }
}

// PLP content, its chunks joined in the room behind what was copied before.
fn join_value(
    k: ContentKind,
    rest: &[u8],
    at: usize,
    copied: usize,
    out: &mut [u8],
) -> Result<(Found, Cursor), Refusal>
    requires { (at + length rest.now ≤ 18446744073709551615) × (copied ≤ length out.old) }
    ensures told { (c : D.Column) → is_plp c ≡ true → value_read_told result ≡ found_behind c (plp_value (content_kind_told k) rest.now) at copied out.old }
    ensures canonical { CanonicalRead result }
    ensures room { (c : D.Column) → is_plp c ≡ true → out.new ≡ room_behind c (plp_value (content_kind_told k) rest.now) at copied out.old }
{
    let text = k.is_text();
    match plp_join::inner::join_in(rest, at, text, &mut out[copied..])? {
        (None, next) => Ok((Found::Null, next)),
        (Some(count), next) => {
            let found = content_found(
                k,
                Stand::Room(Span {
                    start: copied,
                    count,
                }),
            );
            Ok((found, next))
        },
    }
}

// The value that the rest of a row, from `at` on, begins with.
pub fn read_in(
    f: Family,
    declared: u32,
    rest: &[u8],
    at: usize,
    copied: usize,
    out: &mut [u8],
) -> Result<(Found, Cursor), Refusal>
    requires { (at + length rest.now ≤ 18446744073709551615) × (copied ≤ length out.old) }
    ensures told { (c : D.Column) → c.length ≡ declared → value_read_told result ≡ found_behind c (read_family declared (family_told f) rest.now) at copied out.old }
    ensures canonical { CanonicalRead result }
    ensures room { (c : D.Column) → c.length ≡ declared → out.new ≡ room_behind c (read_family declared (family_told f) rest.now) at copied out.old }
{
    match value_look::look(f, declared, rest)? {
        Seen::Null(n) => Ok((Found::Null, Cursor { at: at + n })),
        Seen::Scalar(k, from) => {
            let v = scalar_read::inner::scalar_at(k, rest, from);
            let next = at + (from + k.bytes());
            Ok((Found::Scalar(v), Cursor { at: next }))
        },
        Seen::Part(k, start, count) => {
            let found = content_found(
                k,
                Stand::Input(Span {
                    start: at + start,
                    count,
                }),
            );
            let next = at + (start + count);
            Ok((found, Cursor { at: next }))
        },
        Seen::Plp(k) => join_value(k, rest, at, copied, out),
    }
}
