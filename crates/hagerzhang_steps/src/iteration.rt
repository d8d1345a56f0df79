// The way of an answer in an iteration: what it comes to, and what follows.

ghost use Rattle.std.specs.Prelude.{◌≡◌};
ghost use Rattle.hagerzhang_steps.specs.Iteration.{
  comes_of,
  left_of,
  after_s4_of,
  after_s1_of,
  follow_of,
  onward_of,
  running_of,
};

use crate::moves;
use crate::moves::Move;
use crate::state::{Asked, Finished, Next, Rule, Trial};
use hagerzhang_decisions::bracketing;
use hagerzhang_rules::{Bracket, Came, Point, Setup};

// What follows in the iteration: a move, or its end with a bracket.
#[derive(Clone, Copy)]
pub enum Then {
    Go(Move),
    Close(Bracket),
}

#[tactic(auto, unfolding(crate::specs::Iteration::went_of))]
pub(crate) fn running(s: Setup, last: Finished, t: Trial, asked: Asked, f: f64, g: f64) -> Next
    ensures { result ≡ running_of s last t asked f g }
{
    let n = left(s.options.budget, asked);
    match onward(
        s.options.params.gamma,
        last.bracket,
        t,
        n,
        comes(s.level, t, asked, f, g),
    ) {
        Then::Go(m) => moves::made(s.options.params.theta, last, m),
        Then::Close(u) => moves::settled(s, u, last.c, last.iterations.next()),
    }
}

// (1) What the answer comes to.
#[tactic(auto, unfolding(crate::specs::Iteration::comes_of))]
fn comes(level: f64, t: Trial, asked: Asked, f: f64, g: f64) -> Came
    ensures { result ≡ comes_of level t asked f g }
{
    match asked {
        Asked::Update(w) => bracketing::updated(level, w, Point { x: t.x, f, g }),
        Asked::Between(e) => bracketing::narrowed(level, e.h, e.k, Point { x: e.d, f, g }),
    }
}

// How many answers of U3 may still come.
#[tactic(auto, unfolding(crate::specs::Iteration::left_of))]
fn left(budget: u32, asked: Asked) -> u32
    ensures { result ≡ left_of budget asked }
{
    match asked {
        Asked::Update(_) => budget,
        Asked::Between(e) => e.left,
    }
}

// (2) What follows in the iteration.
#[tactic(auto, unfolding(crate::specs::Iteration::onward_of))]
fn onward(gamma: f64, w: Bracket, t: Trial, left: u32, came: Came) -> Then
    ensures { result ≡ onward_of gamma w t left came }
{
    match came {
        Came::To(u) => follow(gamma, w, t, u),
        Came::On(h, k) => Then::Go(Move::Narrow(t, h, k, left)),
    }
}

// What follows the update of a trial, by the rule that asked it: the state keeps the rule as plain data, so there is no
// closure to keep. gamma and the bracket stay two, as 01 names them.
#[tactic(auto, unfolding(crate::specs::Iteration::follow_by))]
fn follow(gamma: f64, w: Bracket, t: Trial, u: Bracket) -> Then
    ensures { result ≡ follow_of gamma w t u }
{
    let rule = t.rule;
    match rule {
        Rule::S1 => after_s1(gamma, w, t.x, u),
        Rule::S4 => after_s4(gamma, w, u),
        Rule::L2 => Then::Close(u),
    }
}

// After S1: S2 and S3 give S4 its step, the latter overwriting the former.
#[tactic(auto, unfolding(crate::specs::Iteration::tried_by))]
fn after_s1(gamma: f64, w: Bracket, c: f64, u: Bracket) -> Then
    ensures { result ≡ after_s1_of gamma w c u }
{
    match bracketing::s4(w, c, u) {
        Some(x) => Then::Go(moves::tries(u, Rule::S4, x)),
        None => after_s4(gamma, w, u),
    }
}

// After S1 to S4: L2, or the end.
#[tactic(auto, unfolding(crate::specs::Iteration::tried_by))]
fn after_s4(gamma: f64, w: Bracket, v: Bracket) -> Then
    ensures { result ≡ after_s4_of gamma w v }
{
    match bracketing::l2(gamma, w, v) {
        Some(x) => Then::Go(moves::tries(v, Rule::L2, x)),
        None => Then::Close(v),
    }
}
