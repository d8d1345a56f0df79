// 02, request 3, "Start bracketing": a trial of a start that grows.

ghost use Rattle.std.specs.Prelude.{◌≡◌};
ghost use Rattle.hagerzhang_rules.specs.Rules.{grown_of, longer_of};

use hagerzhang_rules::{Bracket, Came, Point};

// "If the trial's slope >= 0, the bracket runs from the last earlier trial (or 0) to it. If its slope < 0 and its cost
// > L, run U3 from 0 to it." `low` is the point at 0. None: the step is too short.
#[tactic(auto, unfolding(hagerzhang_rules::specs::Rules::grown_of))]
pub fn grown(level: f64, low: Point, earlier: Point, t: Point) -> Option<Came>
    ensures { result ≡ grown_of level low earlier t }
{
    if t.g >= 0.0 {
        return Some(Came::To(Bracket { a: earlier, b: t }));
    }
    if (t.g < 0.0) & (t.f > level) {
        return Some(Came::On(low, t.x));
    }
    None
}

// "Otherwise multiply the step by 5 and ask again".
pub fn longer(t: Point) -> f64
    ensures { result ≡ longer_of t }
{
    5.0 * t.x
}
