// The width of a value that is there, for the crates of this repository; none where the column must
// be made and the value looked at. An answer of none is never wrong.
ghost use Rattle.std.specs.Prelude.{◌*◌, ◌<◌, ◌≤◌, length, drop, Some};
ghost use Rattle.packed.specs.Packed.{column_of, no_names};
ghost use Rattle.packed_plain.specs.declared.Plain.TheVariants as P;
ghost use Rattle.plain_look.specs.Stands.{IsLook, IsWidth, IsWidthIn};

use packed_plain::Plain;
use value_kind::kinds::Kind;

// The bytes alone.
fn bare(k: Kind, s: &[u8], at: usize) -> Option<usize>
    requires { at ≤ length s.now }
    ensures { IsWidth (Some (P.Bare k)) (drop at s.now) result }
{
    let w = k.bytes();
    if s.len() - at < w {
        return None;
    }
    Some(w)
}

// Null, or the bytes behind their count.
fn counted(k: Kind, s: &[u8], at: usize) -> Option<usize>
    requires { at ≤ length s.now }
    ensures { IsWidth (Some (P.Counted k)) (drop at s.now) result }
{
    let there = s.len() - at;
    if there == 0 {
        return None;
    }
    let n = s[at] as usize;
    if n == 0 {
        return Some(1);
    }
    if n != k.bytes() {
        return None;
    }
    if there <= n {
        return None;
    }
    Some(1 + n)
}

// The value at a place, under what was told of its column; none where nothing was told.
pub fn width_in(p: Option<Plain>, s: &[u8], at: usize) -> Option<usize>
    requires { at ≤ length s.now }
    ensures { IsWidth p (drop at s.now) result }
{
    match p {
        Some(Plain::Bare(k)) => bare(k, s, at),
        Some(Plain::Counted(k)) => counted(k, s, at),
        None => None,
    }
}

// What is told of the column of the record at i, and the width of the value at a place.
pub fn look_at(table: &[u8], i: usize, s: &[u8], at: usize) -> Option<(Plain, usize)>
    requires { (16 * i < length table.now) × (at ≤ length s.now) }
    ensures { IsLook (column_of (drop (16 * i) table.now) no_names) (drop at s.now) result }
{
    let p = packed_plain::inner::plain_at(table, i)?;
    let n = width_in(Some(p), s, at)?;
    Some((p, n))
}

// The width alone; the most common record first.
pub fn width_at(table: &[u8], i: usize, s: &[u8], at: usize) -> Option<usize>
    requires { (16 * i < length table.now) × (at ≤ length s.now) }
    ensures { IsWidthIn (column_of (drop (16 * i) table.now) no_names) (drop at s.now) result }
{
    if packed_plain::inner::is_int4(table, i) {
        return counted(Kind::I32, s, at);
    }
    let (_, n) = look_at(table, i, s, at)?;
    Some(n)
}
