// A value by its three numbers under what was told of its column, for the crates of this repository;
// no size where the column and the value must be made. An answer of none is never wrong.
ghost use Rattle.std.specs.Prelude.{◌≡◌, ◌+◌, ◌*◌, ◌<◌, ◌≤◌, length, drop, Some};
ghost use Rattle.std.proofs.lemmas.List.Edits.{sets};
ghost use Rattle.format.specs.Scalar.{width};
ghost use Rattle.value_kind.specs.Told.{kind_told};
ghost use Rattle.packed.specs.Packed.{column_of, no_names};
ghost use Rattle.packed_plain.specs.declared.Plain.TheVariants as P;
ghost use Rattle.plain_write.specs.Bytes.{kind_bytes, plain_bytes, IsSize, IsPlain};

use packed_plain::Plain;
use packed_value::Slot;
use value_kind::kinds::Kind;
use wire::Guid;

// The bytes alone.
fn bare_size(k: Kind, kind: u64) -> Option<usize>
    ensures { IsSize (Some (P.Bare k)) kind result }
{
    if kind == k.place() as u64 {
        return Some(k.bytes());
    }
    None
}

// Null, or the bytes behind their count.
fn counted_size(k: Kind, kind: u64) -> Option<usize>
    ensures { IsSize (Some (P.Counted k)) kind result }
{
    if kind == 0 {
        return Some(1);
    }
    if kind != k.place() as u64 {
        return None;
    }
    Some(1 + k.bytes())
}

// How many bytes a value of the kind's number takes; none where nothing was told of the column.
pub fn size_of(p: Option<Plain>, kind: u64) -> Option<usize>
    ensures { IsSize p kind result }
{
    match p {
        Some(Plain::Bare(k)) => bare_size(k, kind),
        Some(Plain::Counted(k)) => counted_size(k, kind),
        None => None,
    }
}

// What is told of the column of the record at i, and how many bytes a value of the kind's number
// takes under it.
pub fn plain_at(table: &[u8], i: usize, kind: u64) -> Option<(Plain, usize)>
    requires { 16 * i < length table.now }
    ensures { IsPlain (column_of (drop (16 * i) table.now) no_names) kind result }
{
    let p = packed_plain::inner::plain_at(table, i)?;
    let n = size_of(Some(p), kind)?;
    Some((p, n))
}

// The kind's bytes from at: a constant width in each arm, so that each is one store.
fn put_kind(out: &mut [u8], at: usize, k: Kind, v: Slot)
    requires { at + width (kind_told k) ≤ length out.old }
    ensures { out.new ≡ sets out.old at (kind_bytes (kind_told k) v.first v.second) }
{
    match k {
        Kind::Bit | Kind::U8 => wire::inner::put_low(out, at, v.first, 1),
        Kind::I16 => wire::inner::put_low(out, at, v.first, 2),
        Kind::I32 | Kind::F32 => wire::inner::put_low(out, at, v.first, 4),
        Kind::I64 | Kind::F64 => wire::inner::put_low(out, at, v.first, 8),
        Kind::Guid => guid::inner::put_guid(
            out,
            at,
            Guid {
                high: v.first,
                low: v.second,
            },
        ),
    }
}

// Null, or the bytes behind their count, from at.
fn put_counted(out: &mut [u8], at: usize, k: Kind, v: Slot)
    requires { at + length (plain_bytes (Some (P.Counted k)) v.kind v.first v.second) ≤ length out.old }
    ensures { out.new ≡ sets out.old at (plain_bytes (Some (P.Counted k)) v.kind v.first v.second) }
{
    if v.kind == 0 {
        wire::inner::put_byte(out, at, 0);
        return;
    }
    wire::inner::put_byte(out, at, k.bytes() as u8);
    put_kind(out, at + 1, k, v);
}

// The value's bytes from at; nothing where nothing was told of the column.
pub fn put_in(out: &mut [u8], at: usize, p: Option<Plain>, v: Slot)
    requires { at + length (plain_bytes p v.kind v.first v.second) ≤ length out.old }
    ensures { out.new ≡ sets out.old at (plain_bytes p v.kind v.first v.second) }
{
    match p {
        Some(Plain::Bare(k)) => put_kind(out, at, k, v),
        Some(Plain::Counted(k)) => put_counted(out, at, k, v),
        None => {}
    }
}
