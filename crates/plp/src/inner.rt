// Leaves that ask something of their caller: a head whose four bytes are there. For this crate
// alone.
ghost use Rattle.std.specs.Prelude.{◌≡◌, ◌+◌, ◌≤◌, length};
ghost use Rattle.format.specs.Plp.{end_of, chunk_of};
ghost use Rattle.plp.specs.Told.{walk_told, headed_told};

use crate::Walk;
use wire::Refusal;

// A zero head.
pub fn end_of(w: Walk) -> Result<Walk, Refusal>
    requires { w.at + 4 ≤ 18446744073709551615 }
    ensures { headed_told result ≡ end_of (walk_told w) }
{
    let total = w.total;
    if plp_rule::unlike_total(total, w.sum) {
        return Err(Refusal::Sequence);
    }
    if plp_rule::is_odd(w.text, w.sum) {
        return Err(Refusal::Sequence);
    }
    Ok(Walk {
        at: w.at + 4,
        sum: w.sum,
        total,
        text: w.text,
        ended: true,
    })
}

// A head of n bytes, not zero.
pub fn chunk_of(s: &[u8], w: Walk, n: u64) -> Result<Walk, Refusal>
    requires { w.at + 4 ≤ length s.now }
    ensures { headed_told result ≡ chunk_of s.now (walk_told w) n }
{
    let total = w.total;
    if plp_rule::above(plp_rule::bound(), w.sum, n) {
        return Err(Refusal::Long);
    }
    if plp_rule::above_total(total, w.sum, n) {
        return Err(Refusal::Sequence);
    }
    let count = n as usize;
    if s.len() - (w.at + 4) < count {
        return Err(Refusal::Missing);
    }
    Ok(Walk {
        at: w.at + 4 + count,
        sum: w.sum + n,
        total,
        text: w.text,
        ended: false,
    })
}
