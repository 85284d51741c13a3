// The PLP rules as tests on numbers. Sums are exact: nothing is added before it is known to fit.

#![tactic(auto)]

ghost use Rattle.std.specs.Prelude.{◌≡◌, [], ◌+◌, ltb};
ghost use Rattle.format.specs.Plp.{plp_bound, head_of, above_total, unlike_total, is_odd};
ghost use Rattle.plp_rule.specs.Told.{total_told, eight_told};

use wire::{Refusal, marks};

// What the eight bytes say. Two cases with names: an option of the option that a total is would say
// null and unknown alike.
#[derive(Clone, Copy)]
pub enum Eight {
    Null,
    Chunked(Option<u64>),
}

// The bound of a PLP value's content.
pub fn bound() -> u64
    ensures { result ≡ plp_bound }
{
    marks::PLP_BOUND as u64
}

// All FF is null; FE then seven FF is unknown; else the total, within the bound.
pub fn eight_of(n: u64) -> Result<Eight, Refusal>
    ensures { eight_told result ≡ head_of n [] }
{
    if n == marks::PLP_NULL {
        return Ok(Eight::Null);
    }
    if n == marks::PLP_UNKNOWN {
        return Ok(Eight::Chunked(None));
    }
    if bound() < n {
        return Err(Refusal::Long);
    }
    Ok(Eight::Chunked(Some(n)))
}

// Are n bytes more above the limit?
pub fn above(limit: u64, sum: u64, n: u64) -> bool
    ensures { result ≡ ltb limit (sum + n) }
{
    limit < sum || limit - sum < n
}

// Are n bytes more above a known total?
pub fn above_total(total: Option<u64>, sum: u64, n: u64) -> bool
    ensures { result ≡ above_total (total_told total) (sum + n) }
{
    total.is_some_and(|t| above(t, sum, n))
}

// Is the sum another than a known total?
pub fn unlike_total(total: Option<u64>, sum: u64) -> bool
    ensures { result ≡ unlike_total (total_told total) sum }
{
    total.is_some_and(|t| sum != t)
}

// Is an even count asked, and the sum odd?
pub fn is_odd(text: bool, sum: u64) -> bool
    ensures { result ≡ is_odd text sum }
{
    text && sum % 2 == 1
}
