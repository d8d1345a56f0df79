// What a search says after each answer, and what it counts: shared by the searches.

#![tactic(auto)]

ghost use Rattle.std.specs.Prelude.{◌≡◌, Float, Bool, true};
ghost use Rattle.refusals.specs.declared.Refusal.TheVariants.{AlreadyOver};
ghost use Rattle.runs.specs.declared.Counts.{Counts};
ghost use Rattle.runs.specs.declared.Turn.{Turn};
ghost use Rattle.runs.specs.declared.Outcome.TheVariants.{Refused};
ghost use Rattle.runs.specs.Counters.{one_more, evaluations, iterations};

use refusals::Refusal;

#[derive(Clone, Copy, Debug, PartialEq, Eq)]
pub enum Verdict {
    // backtracking: the condition is met
    Met,
    // Hager-Zhang: the Wolfe conditions hold, or the approximate ones
    Wolfe,
    Approximate,
}

#[derive(Clone, Copy)]
pub enum Outcome {
    // cost and slope are wanted at this step
    Ask(f64),
    Stop(Verdict, f64),
    Limit(f64),
    Refused(Refusal),
}

// A search, and what it says: what a start or an answer gives.
#[derive(Clone, Copy)]
pub struct Turn<S> {
    pub search: S,
    pub outcome: Outcome,
}

// A search of either kind: it hands out a step, and takes one answer at a time.
pub trait Machine: Copy {
    // what an answer leads to
    ghost turn: { Self → Float → Float → Turn Self };

    // what it has counted
    ghost counted: { Self → Counts };

    // whether it is over
    ghost over: { Self → Bool };

    // One answer, cost f and slope g: the search with it, and what comes next. They stay two numbers, here and below: a
    // struct of both would be made at each call and taken apart in each rule, and is no plainer.
    fn answer(self, f: f64, g: f64) -> Turn<Self>
        ensures { result ≡ turn self f g };

    // Its evaluations and its finished iterations.
    fn counts(self) -> Counts
        ensures { result ≡ counted self };

    // 01, refusal 8: once it is over it refuses whatever is said to it, and stays as it is.
    ghost stays: { (s : Self) (f g : Float) → over s ≡ true
        → turn s f g ≡ record { search = s; outcome = Refused AlreadyOver } };
}

// Finite answers that were accepted.
#[derive(Clone, Copy)]
pub struct Evaluations(pub u32);

// Iterations that were finished.
#[derive(Clone, Copy)]
pub struct Iterations(pub u32);

// What a search has counted.
#[derive(Clone, Copy)]
pub struct Counts {
    pub evaluations: Evaluations,
    pub iterations: Iterations,
}

// One more. It stops at the largest count, which no search that was started reaches.
#[tactic(auto, unfolding(crate::specs::Counters::one_more))]
fn one_more(n: u32) -> u32
    ensures { result ≡ one_more n }
{
    n.saturating_add(1)
}

// The two counters are types of their own, so that none is taken for the other. One generic type would want a type that
// marks it, and a field for that: it is no plainer.
impl Evaluations {
    pub fn next(self) -> Evaluations
        ensures { result ≡ evaluations (one_more self.0) }
    {
        Evaluations(one_more(self.0))
    }
}

impl Iterations {
    pub fn next(self) -> Iterations
        ensures { result ≡ iterations (one_more self.0) }
    {
        Iterations(one_more(self.0))
    }
}
