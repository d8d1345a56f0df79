// A list of answers to numbered searches: number, cost and slope of each, end to end. Which search a number names, and
// whether the list may be given.

#![tactic(auto)]

ghost use Rattle.std.specs.Prelude.{◌≡◌};
ghost use Rattle.answers.specs.Answers.{search_named, refusal_number, CheckedSaid};

use std::num::saturating_f64_to_u32;

// Why a list is refused, in the order in which the reasons are tried.
#[derive(Clone, Copy, Debug, PartialEq, Eq)]
pub enum Refusal {
    // its length is no multiple of 3
    Lengths = 1,
    // a number in it names no search
    NoSuchSearch = 3,
}

impl Refusal {
    // The number by which 02 knows the refusal.
    pub fn number(self) -> u32
        ensures { result ≡ refusal_number self }
    {
        self as u32
    }
}

// The search that x names: the number of 0 to 31 that x is equal to, if there is one.
pub fn number(x: f64) -> Option<u32>
    ensures { result ≡ search_named x }
{
    let n = saturating_f64_to_u32(x);
    if n < 32 && x == f64::from(n) {
        Some(n)
    } else {
        None
    }
}

// Whether the list may be given to n searches, of which there are never more than 32: looks at all of it, and gives
// nothing.
pub fn check(list: &[f64], n: u32) -> Result<(), Refusal>
    ensures { CheckedSaid n list.now result }
{
    let (answers, []) = list.as_chunks::<3>() else {
        return Err(Refusal::Lengths);
    };
    let named = answers
        .iter()
        .all(|[x, ..]| number(*x).is_some_and(|k| k < n));
    if !named {
        return Err(Refusal::NoSuchSearch);
    }
    Ok(())
}
