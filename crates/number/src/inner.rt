// Leaves that ask something of their caller, for the crates of this repository: bytes and numbers at
// a place that lies inside, and the copy of a part.
ghost use Rattle.std.specs.Prelude.{◌≡◌, [], ◌∷◌, ◌++◌, ◌+◌, ◌-◌, ◌≤◌, ◌<◌, ◌^◌, length, take, drop};
ghost use Rattle.std.proofs.lemmas.List.Edits.{sets};
ghost use Rattle.format.specs.Number.{low_nat, low_bytes, high_nat, high_bytes};
ghost use Rattle.lists.specs.Put.{put_at};

// A byte at 64 bits.
fn wide(x: u8) -> u64
    ensures { result ≡ x }
{
    x as u64
}

// The byte b at at.
pub fn put_byte(out: &mut [u8], at: usize, b: u8)
    requires { at < length out.old }
    ensures { out.new ≡ sets out.old at (b ∷ []) }
{
    out[at] = b;
}

// The number in the w bytes from at, low byte first.
pub fn low_at(s: &[u8], at: usize, w: usize) -> u64
    requires { (w ≤ 8) × (at + w ≤ length s.now) }
    ensures value { result ≡ low_nat (take w (drop at s.now)) }
    ensures small { result < 256 ^ w }
{
    let mut n: u64 = 0;
    for i in (0..w).rev() {
        n = n * 256 + wide(s[at + i]);
    }
    n
}

// The number n in w bytes from at, low byte first.
pub fn put_low(out: &mut [u8], at: usize, n: u64, w: usize)
    requires { at + w ≤ length out.old }
    ensures { out.new ≡ sets out.old at (low_bytes w n) }
{
    let mut m = n;
    for i in 0..w {
        out[at + i] = (m % 256) as u8;
        m = m / 256;
    }
}

// The number in the w bytes from at, high byte first.
pub fn high_at(s: &[u8], at: usize, w: usize) -> u64
    requires { (w ≤ 8) × (at + w ≤ length s.now) }
    ensures value { result ≡ high_nat (take w (drop at s.now)) }
    ensures small { result < 256 ^ w }
{
    let mut n: u64 = 0;
    for i in 0..w {
        n = n * 256 + wide(s[at + i]);
    }
    n
}

// The number n in w bytes from at, high byte first.
pub fn put_high(out: &mut [u8], at: usize, n: u64, w: usize)
    requires { at + w ≤ length out.old }
    ensures { out.new ≡ sets out.old at (high_bytes w n) }
{
    let mut m = n;
    for i in (0..w).rev() {
        out[at + i] = (m % 256) as u8;
        m = m / 256;
    }
}

// Copies src to the front of dst, and keeps what stands behind it. A loop, and not `copy_from_slice`, which would
// ask whoever links the archive for `memmove`.
pub fn copy(src: &[u8], dst: &mut [u8])
    requires { length src.now ≤ length dst.old }
    ensures { dst.new ≡ src.now ++ drop (length src.now) dst.old }
{
    for i in 0..src.len() {
        dst[i] = src[i];
    }
}

// Copies the bytes from b up to e of s into out at o.
pub fn paste(s: &[u8], b: usize, e: usize, out: &mut [u8], o: usize)
    requires { (b ≤ e) × ((e ≤ length s.now) × (o + (e - b) ≤ length out.old)) }
    ensures { out.new ≡ put_at out.old o (take (e - b) (drop b s.now)) }
{
    copy(&s[b..e], &mut out[o..]);
}
