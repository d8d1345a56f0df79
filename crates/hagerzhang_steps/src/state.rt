// The state of a search that an answer is given to, and its two builders: a step is asked, and the search is over.

ghost use Rattle.std.specs.Prelude.{◌≡◌};
ghost use Rattle.runs.specs.Counters.{iterations};
ghost use Rattle.hagerzhang_rules.specs.Rules.{iterations_in};
ghost use Rattle.hagerzhang_steps.specs.State.{asks_of, ended_of};
ghost use Rattle.hagerzhang_steps.specs.Reports.{kept_report};

use hagerzhang_rules::{Bounds, Bracket, Point};
use runs::{Iterations, Outcome};

// What a finished iteration left, or the start: bracket, start point c, best, and how many iterations are finished.
#[derive(Clone, Copy)]
pub struct Finished {
    pub bracket: Bracket,
    pub c: Point,
    pub best: Point,
    pub iterations: Iterations,
}

// The finished iterations, of what is kept. During the start nothing is finished.
#[tactic(auto, unfolding(crate::specs::Reports::kept_report))]
pub fn iterations(kept: Option<Finished>) -> Iterations
    ensures { result ≡ iterations (iterations_in (kept_report kept)) }
{
    kept.map_or(Iterations(0), |last| last.iterations)
}

// The rule of 01 by which a trial is asked.
#[derive(Clone, Copy)]
pub enum Rule {
    S1,
    S4,
    L2,
}

#[derive(Clone, Copy)]
pub struct Trial {
    pub rule: Rule,
    pub x: f64,
}

// U3 asked d between h and k, and after this answer `left` more may come.
#[derive(Clone, Copy)]
pub struct Narrowing {
    pub h: Point,
    pub k: f64,
    pub d: f64,
    pub left: u32,
}

// A start that grows asks x. The trial before it, or the point at 0, is `earlier`; after this answer the step may grow
// `left` times more.
#[derive(Clone, Copy)]
pub struct Growth {
    pub earlier: Point,
    pub x: f64,
    pub left: u32,
}

// What a start asked.
#[derive(Clone, Copy)]
pub enum Opening {
    // 01's: at min, where max comes next; at max, behind the answer at min; at the start step
    Low(Bounds),
    High(Point, f64),
    StartStep(Bracket),
    // of 02's request 3: at a trial; in its U3 run, behind the first trial
    First(Growth),
    Later(Growth, Point),
    Inside(Narrowing, Point),
}

// What an iteration asked: the trial's own step, to update a bracket with, or a step of U3.
#[derive(Clone, Copy)]
pub enum Asked {
    Update(Bracket),
    Between(Narrowing),
}

// What the search waits for: an answer of the start, behind which nothing is finished, or one in an iteration.
#[derive(Clone, Copy)]
pub enum Waiting {
    Starting(Opening),
    Running(Trial, Finished, Asked),
}

// A search waits, or it is over and keeps what the last finished iteration left, if there is one.
#[derive(Clone, Copy)]
pub enum Stage {
    Open(Waiting),
    Over(Option<Finished>),
}

// What an answer leads to, before it is put into the search.
#[derive(Clone, Copy)]
pub struct Next {
    pub stage: Stage,
    pub outcome: Outcome,
}

// The step x is asked.
pub(crate) fn asks(waiting: Waiting, x: f64) -> Next
    ensures { result ≡ asks_of waiting x }
{
    Next {
        stage: Stage::Open(waiting),
        outcome: Outcome::Ask(x),
    }
}

// The search is over.
pub(crate) fn ended(kept: Option<Finished>, outcome: Outcome) -> Next
    ensures { result ≡ ended_of kept outcome }
{
    Next {
        stage: Stage::Over(kept),
        outcome,
    }
}
