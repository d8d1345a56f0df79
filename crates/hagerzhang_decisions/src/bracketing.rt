// 01's rules that move the bracket, each as a decision on points and floats: the update, the secant, S2 to S4 and L2
// (argmin's hagerzhang.rs: update, secant, secant2). S2 and S3 are those of 02's request 4.

ghost use Rattle.std.specs.Prelude.{◌≡◌, ◌&&◌, not};
ghost use Rattle.hagerzhang_rules.specs.Rules.{middle_of, narrowed_of, secant_of, is_near, equal_steps, when, S4, L2};
ghost use Rattle.hagerzhang_decisions.specs.Decisions.{updated_of};

use hagerzhang_rules::{Bracket, Came, EPS, Point};

// 01, "Update of (a, b) with c". U0: "c.x <= a.x or c.x >= b.x: unchanged." U1: "c.g >= 0 (minus zero too): (a, c)."
// U2: "c.g < 0, c.f <= L: (c, b)." U3: "c.g < 0, c.f > L: ends h = a, k = c.x", and goes on. That c.g < 0 and c.f > L
// is not tested again: a search comes here with finite numbers, and where the tests before fail these hold (`decides`,
// proofs/Decides.antt).
#[tactic(auto, unfolding(crate::specs::Decisions::updated_of))]
pub fn updated(level: f64, w: Bracket, c: Point) -> Came
    ensures { result ≡ updated_of level w c }
{
    let a = w.a;
    let b = w.b;
    if (c.x <= a.x) | (c.x >= b.x) {
        return Came::To(w);
    }
    if c.g >= 0.0 {
        return Came::To(Bracket { a, b: c });
    }
    if c.f <= level {
        return Came::To(Bracket { a: c, b });
    }
    Came::On(a, c.x)
}

// 01, U3: "Ask d.x = (1-theta)*h.x + theta*k."
pub fn middle(theta: f64, h: Point, k: f64) -> f64
    ensures { result ≡ middle_of theta h k }
{
    (1.0 - theta) * h.x + theta * k
}

// 01, U3 by its answer: "If d.g >= 0: (h, d). Else if d.f <= L: h = d. Else k = d.x. Repeat."
#[tactic(auto, unfolding(hagerzhang_rules::specs::Rules::narrowed_of))]
pub fn narrowed(level: f64, h: Point, k: f64, d: Point) -> Came
    ensures { result ≡ narrowed_of level h k d }
{
    if d.g >= 0.0 {
        return Came::To(Bracket { a: h, b: d });
    }
    if d.f <= level {
        return Came::On(d, k);
    }
    Came::On(h, d.x)
}

// 01: "Secant(p, q) = (p.x*q.g - q.x*p.g)/(q.g - p.g)."
pub fn secant(p: Point, q: Point) -> f64
    ensures { result ≡ secant_of p q }
{
    (p.x * q.g - q.x * p.g) / (q.g - p.g)
}

// 01, S2 and S3: "|c.x - Z.x| < EPS".
fn is_near(x: f64, y: f64) -> bool
    ensures { result ≡ is_near x y }
{
    numbers::abs(x - y) < EPS
}

// ---- 01, "Iteration on (a, b)": w is (a, b), c is c.x, and u is (A, Z)

// The secant of an end before the update and the end behind it, where c is near to the latter. 02, request 4: "no e
// when b and Z have equal steps".
fn near(c: f64, before: Point, behind: Point) -> Option<f64>
    ensures { result ≡ when (is_near c behind.x && not (equal_steps before behind)) (secant_of before behind) }
{
    if is_near(c, behind.x) & (before.x != behind.x) {
        return Some(secant(before, behind));
    }
    None
}

// "S4: if either held, ask e and update (A, Z) with it." "S2: if |c.x - Z.x| < EPS, e = secant(b, Z)"; "S3: if |c.x -
// A.x| < EPS, e = secant(a, A), overwriting S2's"; where S3 gives none, "An earlier e then stays" (02, request 4).
#[tactic(auto, using(crate::proofs::Overwriting::overwrites))]
pub fn s4(w: Bracket, c: f64, u: Bracket) -> Option<f64>
    ensures { result ≡ S4 w c u }
{
    let second = near(c, w.b, u.b);
    let third = near(c, w.a, u.a);
    third.or(second)
}

// "L2: if Z.x - A.x > gamma*(b.x - a.x), ask (A.x + Z.x)/2 and update."
#[tactic(auto, unfolding(hagerzhang_rules::specs::Rules::L2))]
pub fn l2(gamma: f64, w: Bracket, u: Bracket) -> Option<f64>
    ensures { result ≡ L2 gamma w u }
{
    if u.b.x - u.a.x > gamma * (w.b.x - w.a.x) {
        return Some((u.a.x + u.b.x) / 2.0);
    }
    None
}
