// What an answer to a Hager-Zhang search leads to. It comes to a bracket or goes on in U3 (Came), something follows in
// the iteration (Then), the search moves (Move), and one place writes the next state. An answer of the start leads to
// its next step or to its end (Opened), or to a refusal. The files go down in this order: the entry here, opening.rt
// and iteration.rt, moves.rt, state.rt. The crate hagerzhang puts the search around them.
//
// The enums Then, Move, Tested and Opened are pub only so that the proofs of hagerzhang can name them: no use
// line below hands them on, and no code of another crate can.

#![tactic(auto)]

ghost use Rattle.std.specs.Prelude.{◌≡◌};
ghost use Rattle.hagerzhang_steps.specs.Steps.{react_of, starts_of};

use crate::opening::Opened;
use crate::state::{asks, ended};
use hagerzhang_rules::Setup;
use refusals::Refusal;
use runs::{Iterations, Outcome};

mod iteration; // the way of an answer in an iteration, up to a move or its end
mod opening; // the way of an answer in the start
mod moves; // the end of an iteration, and a move made
mod state; // the state, and its two builders

pub use opening::first;
pub use state::{
    Asked, Finished, Growth, Narrowing, Next, Opening, Rule, Stage, Trial, Waiting, iterations,
};

// A finite answer: what the search waits for behind it, or how it ended.
#[tactic(auto, unfolding(crate::specs::Steps::react_of))]
pub fn react(s: Setup, waiting: Waiting, f: f64, g: f64) -> Next
    ensures { result ≡ react_of s waiting f g }
{
    match waiting {
        Waiting::Starting(w) => starts(s, opening::opens(s, w, f, g)),
        Waiting::Running(t, last, asked) => iteration::running(s, last, t, asked, f, g),
    }
}

// What an answer of the start leads to. A search that ends in its start keeps nothing.
#[tactic(auto, unfolding(crate::specs::Steps::starts_of))]
fn starts(s: Setup, o: Result<Opened, Refusal>) -> Next
    ensures { result ≡ starts_of s o }
{
    match o {
        Ok(Opened::More(w, x)) => asks(Waiting::Starting(w), x),
        Ok(Opened::Done(w, c)) => moves::settled(s, w, c, Iterations(0)),
        Err(r) => ended(None, Outcome::Refused(r)),
    }
}
