// What one value in the rest of a row weighs: how many bytes it takes, how many content bytes
// reading copies out, and how many its normal form has. No value is made.

#![tactic(auto)]

ghost use Rattle.std.specs.Prelude.{◌≡◌};
ghost use Rattle.format.specs.Answer.{map_read};
ghost use Rattle.format.specs.Plp.{read_plp};
ghost use Rattle.format.specs.Value.{is_text, read_family};
ghost use Rattle.value_kind.specs.Told.{content_kind_told, family_told};
ghost use Rattle.value_weigh.specs.Told.{weighed_told, needs_in, plp_needs, Within};

use content_size::content;
use value_kind::family::{ContentKind, Family};
use value_look::Seen;
use wire::Refusal;

// A PLP value. Content of none is the two marks alone.
fn weigh_plp(k: ContentKind, rest: &[u8]) -> Result<(usize, usize, usize), Refusal>
    ensures told { weighed_told result ≡ map_read plp_needs (read_plp (is_text (content_kind_told k)) rest.now) }
    ensures within { Within rest.now result }
{
    match plp_join::judge_plp(rest, k.is_text())? {
        None => Ok((8, 0, 8)),
        Some((count, end)) => Ok((end, count, content::formed(true, count as u32))),
    }
}

// The value that the rest of a row, from its first byte on, begins with.
pub fn weigh(f: Family, declared: u32, rest: &[u8]) -> Result<(usize, usize, usize), Refusal>
    ensures told { weighed_told result ≡ map_read (needs_in declared (family_told f)) (read_family declared (family_told f) rest.now) }
    ensures within { Within rest.now result }
{
    match value_look::look(f, declared, rest)? {
        Seen::Null(n) => Ok((n, 0, n)),
        Seen::Scalar(k, at) => {
            let wide = at + k.bytes();
            Ok((wide, 0, wide))
        },
        Seen::Part(_, start, count) => {
            let long = start + count;
            Ok((long, 0, long))
        },
        Seen::Plp(k) => weigh_plp(k, rest),
    }
}
