// The way of an answer in the start: 01's three answers, and 02's start that grows.

ghost use Rattle.std.specs.Prelude.{◌≡◌};
ghost use Rattle.hagerzhang_rules.specs.Rules.{zero_of};
ghost use Rattle.hagerzhang_steps.specs.Opening.{first_of, opens_of, grew_of, stretch_of, arrived_of};

use crate::moves;
use crate::state::{Growth, Opening};
use hagerzhang_decisions::{bracketing, growing};
use hagerzhang_rules::{Bracket, Came, Point, Setup, Way};
use refusals::Refusal;

// What an answer in the start leads to, where it is not refused: the next step, or the bracket and c with which the
// start is finished.
#[derive(Clone, Copy)]
pub enum Opened {
    More(Opening, f64),
    Done(Bracket, Point),
}

// "the low end is step 0 with f0 and s0".
fn zero(s: Setup) -> Point
    ensures { result ≡ zero_of s }
{
    Point {
        x: 0.0,
        f: s.f0,
        g: s.s0,
    }
}

// What is asked first.
#[tactic(auto, unfolding(crate::specs::Opening::first_by))]
pub fn first(s: Setup) -> Opening
    ensures { result ≡ first_of s }
{
    let o = s.options;
    let way = o.way;
    match way {
        Way::Bounded(e) => Opening::Low(e),
        Way::Growing(left) => Opening::First(Growth {
            earlier: zero(s),
            x: o.params.start,
            left,
        }),
    }
}

// A finite answer in the start.
#[tactic(auto, unfolding(crate::specs::Opening::opens_of))]
pub(crate) fn opens(s: Setup, w: Opening, f: f64, g: f64) -> Result<Opened, Refusal>
    ensures { result ≡ opens_of s w f g }
{
    let c = s.options.params.start;
    match w {
        Opening::Low(e) => {
            let a = Point { x: e.min, f, g };
            Ok(Opened::More(Opening::High(a, e.max), e.max))
        }
        Opening::High(a, x) => {
            let b = Point { x, f, g };
            Ok(Opened::More(Opening::StartStep(Bracket { a, b }), c))
        }
        Opening::StartStep(w) => Ok(Opened::Done(w, Point { x: c, f, g })),
        Opening::First(w) => {
            let t = Point { x: w.x, f, g };
            grew(s, w, t, t)
        }
        Opening::Later(w, c) => grew(s, w, c, Point { x: w.x, f, g }),
        Opening::Inside(e, c) => arrived(
            s.options.params.theta,
            c,
            e.left,
            bracketing::narrowed(s.level, e.h, e.k, Point { x: e.d, f, g }),
        ),
    }
}

// The trial t is answered. "The best's c is the first trial."
#[tactic(auto, unfolding(crate::specs::Opening::grew_by))]
fn grew(s: Setup, w: Growth, c: Point, t: Point) -> Result<Opened, Refusal>
    ensures { result ≡ grew_of s w c t }
{
    match growing::grown(s.level, zero(s), w.earlier, t) {
        Some(came) => arrived(s.options.params.theta, c, s.options.budget, came),
        None => stretch(c, t, w.left),
    }
}

// A longer step is asked where it may still grow (11) and the step is finite (5).
#[tactic(auto, unfolding(crate::specs::Opening::stretch_of))]
fn stretch(c: Point, t: Point, left: u32) -> Result<Opened, Refusal>
    ensures { result ≡ stretch_of c t left }
{
    if left == 0 {
        return Err(Refusal::GrowthsSpent);
    }
    let x = growing::longer(t);
    if !numbers::is_finite(x) {
        return Err(Refusal::StepNotFinite);
    }
    let left = left - 1;
    let longer = Growth {
        earlier: t,
        x,
        left,
    };
    Ok(Opened::More(Opening::Later(longer, c), x))
}

// A bracket is come to, or U3 goes on while `left` answers may come, and its next step is asked where it passes.
#[tactic(auto, unfolding(crate::specs::Opening::arrived_of, crate::specs::Opening::inside_of))]
fn arrived(theta: f64, c: Point, left: u32, came: Came) -> Result<Opened, Refusal>
    ensures { result ≡ arrived_of theta c left came }
{
    match came {
        Came::To(w) => Ok(Opened::Done(w, c)),
        Came::On(h, k) => {
            let e = moves::probe(theta, h, k, left)?;
            Ok(Opened::More(Opening::Inside(e, c), e.d))
        }
    }
}
