// The end of the start or of an iteration, and a move: tested and made.

ghost use Rattle.std.specs.Prelude.{◌≡◌};
ghost use Rattle.hagerzhang_steps.specs.Moves.{
  tries_of,
  settled_of,
  outlook_of,
  made_of,
  test_of,
  attempt_of,
  narrow_of,
  probe_of,
  refused_of,
};

use crate::state::{Asked, Finished, Narrowing, Next, Rule, Trial, Waiting, asks, ended};
use hagerzhang_decisions::{bracketing, verdicts};
use hagerzhang_rules::{Bracket, Point, Setup};
use refusals::Refusal;
use runs::{Iterations, Outcome, Verdict};

// What is due next: a trial's step, a step of U3 between h and k while so many answers may come, or the end by a
// verdict or the limit. U3's ends stay two values, as `Came` and the rules' text have them.
#[derive(Clone, Copy)]
pub enum Move {
    Try(Bracket, Trial),
    Narrow(Trial, Point, f64, u32),
    ByVerdict(Verdict),
    ByLimit,
}

// (3) The start or an iteration is finished: L3, best, and what is due then.
pub(crate) fn settled(s: Setup, bracket: Bracket, c: Point, iterations: Iterations) -> Next
    ensures { result ≡ settled_of s bracket c iterations }
{
    let best = verdicts::best(bracket.a, bracket.b, c);
    let last = Finished {
        bracket,
        c,
        best,
        iterations,
    };
    made(s.options.params.theta, last, outlook(s, last))
}

// The verdict, then the limit, and only then S1 of the next iteration.
#[tactic(auto, unfolding(crate::specs::Moves::outlook_by))]
fn outlook(s: Setup, last: Finished) -> Move
    ensures { result ≡ outlook_of s last }
{
    let w = last.bracket;
    match verdicts::judge(s, last.best) {
        Some(v) => Move::ByVerdict(v),
        None => {
            if s.options.limit <= last.iterations.0 {
                return Move::ByLimit;
            }
            tries(w, Rule::S1, bracketing::secant(w.a, w.b))
        }
    }
}

pub(crate) fn tries(u: Bracket, rule: Rule, x: f64) -> Move
    ensures { result ≡ tries_of u rule x }
{
    Move::Try(u, Trial { rule, x })
}

// A move that was tested: it is asked, or the search is over. It is no Result, since an end by a verdict is no error.
#[derive(Clone, Copy)]
pub enum Tested {
    Asks(Bracket, Trial),
    Narrows(Trial, Narrowing),
    Stops(Outcome),
}

// (4) What is due is tested: 5; 6, 5, 7.
#[tactic(auto, unfolding(crate::specs::Moves::test_of))]
fn test(theta: f64, best: f64, m: Move) -> Tested
    ensures { result ≡ test_of theta best m }
{
    match m {
        Move::Try(u, t) => attempt(u, t),
        Move::Narrow(t, h, k, left) => narrow(theta, t, h, k, left),
        Move::ByVerdict(v) => Tested::Stops(Outcome::Stop(v, best)),
        Move::ByLimit => Tested::Stops(Outcome::Limit(best)),
    }
}

// A trial is asked where its step is finite (5).
#[tactic(auto, unfolding(crate::specs::Moves::attempt_of))]
fn attempt(u: Bracket, t: Trial) -> Tested
    ensures { result ≡ attempt_of u t }
{
    if numbers::is_finite(t.x) {
        return Tested::Asks(u, t);
    }
    refused(Refusal::StepNotFinite)
}

// U3's next step is asked, where it passes.
#[tactic(auto, unfolding(crate::specs::Moves::narrow_by))]
fn narrow(theta: f64, t: Trial, h: Point, k: f64, left: u32) -> Tested
    ensures { result ≡ narrow_of theta t h k left }
{
    match probe(theta, h, k, left) {
        Ok(e) => Tested::Narrows(t, e),
        Err(r) => refused(r),
    }
}

// U3's next step is asked where an answer may still come (6) and it is finite (5) and strictly between the ends (7).
#[tactic(auto, unfolding(crate::specs::Moves::probe_of))]
pub(crate) fn probe(theta: f64, h: Point, k: f64, left: u32) -> Result<Narrowing, Refusal>
    ensures { result ≡ probe_of theta h k left }
{
    if left == 0 {
        return Err(Refusal::BudgetSpent);
    }
    let d = bracketing::middle(theta, h, k);
    if !numbers::is_finite(d) {
        return Err(Refusal::StepNotFinite);
    }
    if (h.x < d) & (d < k) {
        let left = left - 1;
        return Ok(Narrowing { h, k, d, left });
    }
    Err(Refusal::StepNotBetween)
}

fn refused(r: Refusal) -> Tested
    ensures { result ≡ refused_of r }
{
    Tested::Stops(Outcome::Refused(r))
}

// (5) The next state, and what is said. An end keeps what the last finished iteration left.
#[tactic(auto, unfolding(crate::specs::Moves::made_by))]
pub(crate) fn made(theta: f64, last: Finished, m: Move) -> Next
    ensures { result ≡ made_of theta last m }
{
    match test(theta, last.best.x, m) {
        Tested::Asks(u, t) => asks(Waiting::Running(t, last, Asked::Update(u)), t.x),
        Tested::Narrows(t, e) => asks(Waiting::Running(t, last, Asked::Between(e)), e.d),
        Tested::Stops(outcome) => ended(Some(last), outcome),
    }
}
