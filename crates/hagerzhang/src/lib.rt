// Hager-Zhang as a machine. The search hands out a step and is given cost and slope there. What an answer leads to is
// in the crate hagerzhang_steps; here it is counted, refused where it is not finite, and put into the search.

#![tactic(auto)]

ghost use Rattle.std.specs.Prelude.{◌≡◌, false};
ghost use Rattle.std.specs.Float.Ieee.{is_nan};
ghost use Rattle.runs.specs.Asking.{reported, awaits};
ghost use Rattle.hagerzhang.specs.Machine.{
  fresh_of,
  StartSaid,
  AnswerSaid,
  answer_of,
  counted_of,
  keeps_of,
  held_of,
  step_asked,
  opening_step,
  step_due,
  awaited_of,
  taken_of,
};
ghost use Rattle.hagerzhang_steps.specs.Reports.{kept_report};
ghost use Rattle.hagerzhang.specs.Meaning.{is_over, meant, Starts, Follows};
ghost use Rattle.hagerzhang.specs.Over.{stays};

use crate::state::turned;
use hagerzhang_rules::{Options, Setup};
use hagerzhang_steps::Next;
use refusals::Refusal;
use runs::{Counts, Evaluations, Machine, Outcome};

mod state; // the search, and its builder

pub use hagerzhang_steps::{
    Asked, Finished, Growth, Narrowing, Opening, Rule, Stage, Trial, Waiting,
};
pub use state::{Search, Turn};

// ---- a start

// A search that asks its first step, for cost f0 and slope s0 at step 0; or why there is none.
pub fn start(o: Options, f0: f64, s0: f64) -> Result<Turn, Refusal>
    ensures exact { StartSaid o f0 s0 result }
    ensures rules { Starts o f0 s0 result }
{
    if !hagerzhang_parameters::supplied_finite(o, f0, s0) {
        return Err(Refusal::SuppliedNotFinite);
    }
    if !hagerzhang_parameters::in_ranges(o) {
        return Err(Refusal::OutOfRange);
    }
    if hagerzhang_parameters::not_downhill(o.way, s0) {
        return Err(Refusal::NotDownhill);
    }
    let epsilon_k = o.params.epsilon * numbers::abs(f0);
    let level = f0 + epsilon_k;
    if !numbers::both_finite(epsilon_k, level) {
        return Err(Refusal::ResultNotFinite);
    }
    Ok(fresh(Setup {
        options: o,
        f0,
        s0,
        level,
    }))
}

// A search that waits for the first answer.
fn fresh(s: Setup) -> Turn
    ensures { result ≡ fresh_of s }
{
    let w = hagerzhang_steps::first(s);
    let x = opening_step(s.options.params.start, w);
    let stage = Stage::Open(Waiting::Starting(w));
    let outcome = Outcome::Ask(x);
    turned(s, Evaluations(0), Next { stage, outcome })
}

// ---- the way of an answer

// One answer is the step that 01's rules take, of any state whose L is no NaN.
impl Machine for Search {
    ghost turn = { answer_of };

    ghost counted = { counted_of };

    ghost over = { λ s. is_over s.stage };

    ghost stays = { stays };

    fn answer(self, f: f64, g: f64) -> Turn
        ensures exact { AnswerSaid self f g result }
        ensures rules { is_nan self.setup.level ≡ false → Follows self f g result }
    {
        match self.stage {
            Stage::Open(waiting) => taken(self.setup, self.evaluations, waiting, f, g),
            Stage::Over(_) => Turn {
                search: self,
                outcome: Outcome::Refused(Refusal::AlreadyOver),
            },
        }
    }

    fn counts(self) -> Counts {
        Counts {
            evaluations: self.evaluations,
            iterations: hagerzhang_steps::iterations(self.held()),
        }
    }
}

// An answer to a search that is not over. Every finite answer counts, those of a refused iteration too. It is no
// method: `turned`, which a start calls too, makes the search of its parts.
#[tactic(auto, unfolding(crate::specs::Machine::taken_of))]
fn taken(s: Setup, n: Evaluations, waiting: Waiting, f: f64, g: f64) -> Turn
    ensures { result ≡ taken_of s n waiting f g }
{
    if numbers::both_finite(f, g) {
        return turned(s, n.next(), hagerzhang_steps::react(s, waiting, f, g));
    }
    let stage = Stage::Over(keeps(waiting));
    let outcome = Outcome::Refused(Refusal::SuppliedNotFinite);
    turned(s, n, Next { stage, outcome })
}

// ---- what a search holds

impl Search {
    // Bracket, best and iterations of the last finished iteration, or of the start; none yet during the start.
    pub fn held(self) -> Option<Finished>
        ensures exact { result ≡ held_of self }
        ensures rules { kept_report result ≡ reported (meant self) }
    {
        match self.stage {
            Stage::Open(waiting) => keeps(waiting),
            Stage::Over(kept) => kept,
        }
    }

    // The step at which an answer is awaited, if there is one.
    pub fn awaited(self) -> Option<f64>
        ensures exact { result ≡ awaited_of self }
        ensures rules { result ≡ awaits (meant self) }
    {
        match self.stage {
            Stage::Open(waiting) => Some(step_due(self.setup, waiting)),
            Stage::Over(_) => None,
        }
    }
}

#[tactic(auto, unfolding(crate::specs::Machine::step_due))]
fn step_due(s: Setup, waiting: Waiting) -> f64
    ensures { result ≡ step_due s waiting }
{
    match waiting {
        Waiting::Starting(w) => opening_step(s.options.params.start, w),
        Waiting::Running(t, _, asked) => step_asked(t, asked),
    }
}

#[tactic(auto, unfolding(crate::specs::Machine::opening_step))]
fn opening_step(start: f64, w: Opening) -> f64
    ensures { result ≡ opening_step start w }
{
    match w {
        Opening::Low(e) => e.min,
        Opening::High(_, x) => x,
        Opening::StartStep(_) => start,
        Opening::First(w) => w.x,
        Opening::Later(w, _) => w.x,
        Opening::Inside(e, _) => e.d,
    }
}

#[tactic(auto, unfolding(crate::specs::Machine::step_asked))]
fn step_asked(t: Trial, asked: Asked) -> f64
    ensures { result ≡ step_asked t asked }
{
    match asked {
        Asked::Update(_) => t.x,
        Asked::Between(e) => e.d,
    }
}

// What is kept while an answer is awaited.
#[tactic(auto, unfolding(crate::specs::Machine::keeps_of))]
fn keeps(waiting: Waiting) -> Option<Finished>
    ensures { result ≡ keeps_of waiting }
{
    match waiting {
        Waiting::Starting(_) => None,
        Waiting::Running(_, last, _) => Some(last),
    }
}
