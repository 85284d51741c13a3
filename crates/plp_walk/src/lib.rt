// A walk object that keeps the lent input and its place, and thin functions over it. The work is
// in `step_on`, which takes a plain slice.

#![tactic(auto)]

ghost use Rattle.std.specs.Prelude.{List, ◌≡◌, ℕ};
ghost use Rattle.format.specs.Plp.{made_of, stepped};
ghost use Rattle.plp.specs.Told.{walk_told};
ghost use Rattle.plp_walk.specs.Told.{standing_told, object_told};

use plp::Walk;
use wire::Refusal;

// Where a walk stands, and what its last step reported.
#[derive(Clone, Copy)]
pub struct Standing {
    pub walk: Walk,
    pub said: Result<u64, Refusal>,
}

#[derive(Clone, Copy)]
pub struct WalkObject<'a> {
    pub input: &'a [u8],
    pub standing: Standing,
}

// A walk that has not been stepped.
pub fn at_rest(walk: Walk) -> Standing
    ensures { (s : List ℕ) → standing_told s result ≡ made_of s (walk_told walk) }
{
    Standing { walk, said: Ok(0) }
}

// As many heads as are allowed, from where the walk stands. A refusal leaves it there.
pub fn step_on(s: &[u8], from: Standing, allowed: u64) -> Standing
    ensures { standing_told s.now result ≡ stepped allowed (standing_told s.now from) }
{
    let walk = from.walk;
    match plp::walk_chunks(s, walk, allowed) {
        Ok((x, taken)) => Standing {
            walk: x,
            said: Ok(taken),
        },
        Err(e) => Standing { walk, said: Err(e) },
    }
}

// The object, made.
pub fn walk_object<'a>(input: &'a [u8], standing: Standing) -> WalkObject<'a>
    ensures { (result.input ≡ input.entry) × (result.standing ≡ standing) }
{
    WalkObject { input, standing }
}

// The object, stepped.
pub fn step_walk<'a>(o: WalkObject<'a>, allowed: u64) -> WalkObject<'a>
    ensures { (result.input ≡ o.entry.input) × (object_told result ≡ stepped allowed (object_told o.entry)) }
{
    let standing = step_on(o.input, o.standing, allowed);
    WalkObject {
        input: o.input,
        standing,
    }
}

// The object, asked for its place.
pub fn walk_place<'a>(o: WalkObject<'a>) -> usize
    ensures { result ≡ o.entry.standing.walk.at }
{
    o.standing.walk.at
}

// The object, asked where it stands and what it reported.
pub fn walk_standing<'a>(o: WalkObject<'a>) -> Standing
    ensures { result ≡ o.entry.standing }
{
    o.standing
}

// An object made, stepped once and asked, over plain parameters: whoever calls this needs no walk.
pub fn walk_on(s: &[u8], from: Standing, allowed: u64) -> Standing
    ensures { standing_told s.now result ≡ stepped allowed (standing_told s.now from) }
{
    walk_standing(step_walk(walk_object(s, from), allowed))
}
