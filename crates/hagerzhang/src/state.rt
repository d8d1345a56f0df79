// A search, and its builder: the search with its outcome.

ghost use Rattle.std.specs.Prelude.{◌≡◌};
ghost use Rattle.hagerzhang.specs.Machine.{turned_of};

use hagerzhang_rules::Setup;
use hagerzhang_steps::{Next, Stage};
use runs::Evaluations;

#[derive(Clone, Copy)]
pub struct Search {
    pub setup: Setup,
    pub evaluations: Evaluations,
    pub stage: Stage,
}

// The search, and what it says.
pub type Turn = runs::Turn<Search>;

// The search with what an answer leads to.
pub(crate) fn turned(setup: Setup, evaluations: Evaluations, next: Next) -> Turn
    ensures { result ≡ turned_of setup evaluations next }
{
    Turn {
        search: Search {
            setup,
            evaluations,
            stage: next.stage,
        },
        outcome: next.outcome,
    }
}
