// What every call for C and Rust answers: a struct of two numbers.

#![tactic(auto)]

ghost use Rattle.std.specs.Prelude.{◌≡◌};
ghost use Rattle.format.specs.Answer.{gives, refuses, unknown};
ghost use Rattle.wire.specs.Told.{refusal_told, answer_told};
ghost use Rattle.board_answer.specs.Told.{flag_given, counted};

use wire::Refusal;

// The flag of a number: 0 or 1.
pub fn flag(n: u64) -> Result<bool, Refusal>
    ensures { answer_told result ≡ flag_given n }
{
    match n {
        0 => Ok(false),
        1 => Ok(true),
        _ => Err(Refusal::Unknown),
    }
}

// Refusal 0 and a count, or a refusal's number and 0.
#[repr(C)]
#[derive(Clone, Copy)]
pub struct Counted {
    pub refusal: u64,
    pub count: u64,
}

// A refusal.
pub fn refused(e: Refusal) -> Counted
    ensures { result ≡ counted (refuses (refusal_told e)) }
{
    Counted {
        refusal: u64::from(e.number()),
        count: 0,
    }
}

// The refusal of a number that stands for nothing: an unknown type, a flag other than 0 and 1.
pub fn unknown() -> Counted
    ensures { result ≡ counted (refuses unknown) }
{
    refused(Refusal::Unknown)
}

// A count.
pub fn count(n: u64) -> Counted
    ensures { result ≡ counted (gives n) }
{
    Counted {
        refusal: 0,
        count: n,
    }
}

// The place that a reader hands back.
pub fn at(next: usize) -> Counted
    ensures { result ≡ counted (gives next) }
{
    count(next as u64)
}

// What a writer answers.
pub fn answer(w: Result<usize, Refusal>) -> Counted
    ensures { result ≡ counted (answer_told w) }
{
    match w {
        Ok(n) => count(n as u64),
        Err(e) => refused(e),
    }
}
