// What the numbers of a record say, for the crates of this repository. What is not told here is found
// by making the column: an answer of `None` is never wrong.
ghost use Rattle.std.specs.Prelude.{◌≡◌, true, ◌*◌, ◌<◌, length, drop};
ghost use Rattle.packed.specs.Packed.{column_of, no_names};
ghost use Rattle.value_kind.specs.declared.kinds.Kind.TheVariants as K;
ghost use Rattle.packed_plain.specs.declared.Plain.TheVariants as P;
ghost use Rattle.packed_plain.specs.Says.{Names, Says, Tells};

use crate::Plain;
use value_kind::kinds::Kind;

// What a type byte and a length name.
fn named(ty: u64, n: u64) -> Option<Plain>
    ensures { Names result ty n }
{
    match (ty, n) {
        (0x30, 0) => Some(Plain::Bare(Kind::U8)),
        (0x34, 0) => Some(Plain::Bare(Kind::I16)),
        (0x38, 0) => Some(Plain::Bare(Kind::I32)),
        (0x3B, 0) => Some(Plain::Bare(Kind::F32)),
        (0x3E, 0) => Some(Plain::Bare(Kind::F64)),
        (0x7F, 0) => Some(Plain::Bare(Kind::I64)),
        (0x26, 1) => Some(Plain::Counted(Kind::U8)),
        (0x26, 2) => Some(Plain::Counted(Kind::I16)),
        (0x26, 4) => Some(Plain::Counted(Kind::I32)),
        (0x26, 8) => Some(Plain::Counted(Kind::I64)),
        (0x6D, 4) => Some(Plain::Counted(Kind::F32)),
        (0x6D, 8) => Some(Plain::Counted(Kind::F64)),
        (0x24, 16) => Some(Plain::Counted(Kind::Guid)),
        _ => None,
    }
}

// The column of the record at i, from the left. Type, flags, precision and scale are one number, and
// sort byte and index stand above it; length and collation are another.
pub fn plain_at(table: &[u8], i: usize) -> Option<Plain>
    requires { 16 * i < length table.now }
    ensures { Tells result (column_of (drop (16 * i) table.now) no_names) }
{
    let at = 16 * i;
    if table.len() - at < 16 {
        return None;
    }
    let ty = wire::inner::low_at(table, at, 4);
    let n = wire::inner::low_at(table, at + 4, 8);
    let last = wire::inner::low_at(table, at + 12, 4);
    let key = ty + 4294967296 * last;
    named(key, n)
}

// Is it an Intn of four bytes? The one that is asked first.
pub fn is_int4(table: &[u8], i: usize) -> bool
    requires { 16 * i < length table.now }
    ensures { result ≡ true → Says (P.Counted K.I32) (column_of (drop (16 * i) table.now) no_names) }
{
    let at = 16 * i;
    if table.len() - at < 16 {
        return false;
    }
    let ty = wire::inner::low_at(table, at, 4);
    let n = wire::inner::low_at(table, at + 4, 8);
    let last = wire::inner::low_at(table, at + 12, 4);
    if n == 4 {
        return ty + 4294967296 * last == 0x26;
    }
    false
}
