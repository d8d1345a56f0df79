// Backtracking (argmin's backtracking.rs): the step is shrunk until a condition is met. The search hands out a step,
// and is given cost and slope there.

#![tactic(auto)]

ghost use Rattle.std.specs.Prelude.{◌≡◌};
ghost use Rattle.backtracking.specs.Backtracking.{supplied_finite, in_ranges, defaults_of};
ghost use Rattle.runs.specs.declared.Outcome.TheVariants.{Ask};
ghost use Rattle.backtracking.specs.declared.Stage.TheVariants.{Later, Over};
ghost use Rattle.backtracking.specs.Machine.{made_of, fresh_of, tried_of, answer_of, counted_of, StartSaid, AnswerSaid};
ghost use Rattle.backtracking.specs.Meaning.{is_over, Starts, Follows};
ghost use Rattle.backtracking.specs.Over.{stays};

use conditions::Condition;
use refusals::Refusal;
use runs::{Counts, Evaluations, Iterations, Machine, Outcome, Verdict};

#[derive(Clone, Copy)]
pub struct Options {
    pub condition: Condition,
    // the factor by which a step shrinks
    pub rho: f64,
    // the first step
    pub alpha: f64,
    // how many trials may follow the first
    pub limit: u32,
}

// What does not change in a search.
#[derive(Clone, Copy)]
pub struct Setup {
    pub options: Options,
    // cost and slope at step 0
    pub f0: f64,
    pub s0: f64,
}

// What the search waits for: the answer at the first step, at a later one, or nothing any more.
#[derive(Clone, Copy)]
pub enum Stage {
    First,
    Later(f64),
    Over,
}

// There is no bracket and no best in it. The two counts are no `Counts`: they are counted one at a time.
#[derive(Clone, Copy)]
pub struct Backtracking {
    pub setup: Setup,
    pub evaluations: Evaluations,
    pub iterations: Iterations,
    pub stage: Stage,
}

// The search, and what it says.
pub type Turn = runs::Turn<Backtracking>;

// argmin's rho and first step, and a limit of 100.
pub fn defaults(condition: Condition) -> Options
    ensures { result ≡ defaults_of condition }
{
    Options {
        condition,
        rho: 0.9,
        alpha: 1.0,
        limit: 100,
    }
}

// ---- a start

fn supplied_finite(o: Options, f0: f64, s0: f64) -> bool
    ensures { result ≡ supplied_finite o f0 s0 }
{
    o.condition.constants_finite()
        & numbers::is_finite(o.rho)
        & numbers::is_finite(o.alpha)
        & numbers::is_finite(f0)
        & numbers::is_finite(s0)
}

fn in_ranges(o: Options) -> bool
    ensures { result ≡ in_ranges o }
{
    o.condition.in_range()
        & (0.0 < o.rho)
        & (o.rho < 1.0)
        & (0.0 < o.alpha)
        & ((1 <= o.limit) & (o.limit <= 10000))
}

// A search that asks the first step, for cost f0 and slope s0 at step 0; or why there is none.
pub fn start(o: Options, f0: f64, s0: f64) -> Result<Turn, Refusal>
    ensures exact { StartSaid o f0 s0 result }
    ensures rules { Starts o f0 s0 result }
{
    if !supplied_finite(o, f0, s0) {
        return Err(Refusal::SuppliedNotFinite);
    }
    if !in_ranges(o) {
        return Err(Refusal::OutOfRange);
    }
    Ok(fresh(Setup { options: o, f0, s0 }))
}

// A search that waits for the first answer.
fn fresh(s: Setup) -> Turn
    ensures { result ≡ fresh_of s }
{
    Turn {
        search: Backtracking {
            setup: s,
            evaluations: Evaluations(0),
            iterations: Iterations(0),
            stage: Stage::First,
        },
        outcome: Outcome::Ask(s.options.alpha),
    }
}

// ---- an answer

impl Backtracking {
    // It ends.
    fn ended(self, outcome: Outcome) -> Turn
        ensures { result ≡ made_of self.setup self.evaluations self.iterations Over outcome }
    {
        Turn {
            search: Backtracking {
                stage: Stage::Over,
                ..self
            },
            outcome,
        }
    }

    // It asks a step that is shorter than the one before.
    fn asks(self, x: f64) -> Turn
        ensures { result ≡ made_of self.setup self.evaluations self.iterations (Later x) (Ask x) }
    {
        Turn {
            search: Backtracking {
                stage: Stage::Later(x),
                ..self
            },
            outcome: Outcome::Ask(x),
        }
    }

    // The answer at the step t, with which `now` iterations are counted: refused (2), the end by the condition or by
    // the limit, or the next trial, at t * rho (5).
    #[tactic(auto, unfolding(crate::specs::Machine::tried_of))]
    fn tried(self, now: Iterations, t: f64, f: f64, g: f64) -> Turn
        ensures { result ≡ tried_of self.setup self.evaluations self.iterations now t f g }
    {
        let s = self.setup;
        let o = s.options;
        if !o.condition.answer_finite(f, g) {
            return self.ended(Outcome::Refused(Refusal::SuppliedNotFinite));
        }
        let counted = Backtracking {
            evaluations: self.evaluations.next(),
            iterations: now,
            ..self
        };
        if o.condition.holds(s.f0, s.s0, t, f, g) {
            return counted.ended(Outcome::Stop(Verdict::Met, t));
        }
        if o.limit <= now.0 {
            return counted.ended(Outcome::Limit(t));
        }
        let shorter = t * o.rho;
        if numbers::is_finite(shorter) {
            return counted.asks(shorter);
        }
        counted.ended(Outcome::Refused(Refusal::StepNotFinite))
    }
}

// One answer is the step that 01's rules take.
impl Machine for Backtracking {
    ghost turn = { answer_of };

    ghost counted = { counted_of };

    ghost over = { λ s. is_over s.stage };

    ghost stays = { stays };

    fn answer(self, f: f64, g: f64) -> Turn
        ensures exact { AnswerSaid self f g result }
        ensures rules { Follows self f g result }
    {
        match self.stage {
            Stage::First => self.tried(self.iterations, self.setup.options.alpha, f, g),
            Stage::Later(t) => self.tried(self.iterations.next(), t, f, g),
            Stage::Over => Turn {
                search: self,
                outcome: Outcome::Refused(Refusal::AlreadyOver),
            },
        }
    }

    fn counts(self) -> Counts {
        Counts {
            evaluations: self.evaluations,
            iterations: self.iterations,
        }
    }
}
