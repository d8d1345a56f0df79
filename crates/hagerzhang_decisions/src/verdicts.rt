// 01's best and verdict (argmin's hagerzhang.rs: set_best, terminate).

ghost use Rattle.std.specs.Prelude.{◌≡◌};
ghost use Rattle.hagerzhang_rules.specs.Rules.{best_of, wolfe_holds, approximate_holds, judge_of};

use hagerzhang_rules::{Point, Setup};
use runs::Verdict;

// 01: "Best: if a.f <= b.f and a.f <= c.f take a; then b by the same test, overriding; then c, overriding." What comes
// last is tested first. Where neither c nor b is taken it is a, with no third test: of finite costs one of the three is
// lowest (`best-is-one`, hagerzhang_rules/proofs/Best.antt).
#[tactic(auto, unfolding(hagerzhang_rules::specs::Rules::best_over))]
pub fn best(a: Point, b: Point, c: Point) -> Point
    ensures { result ≡ best_of a b c }
{
    if (c.f <= a.f) & (c.f <= b.f) {
        return c;
    }
    if (b.f <= a.f) & (b.f <= c.f) {
        return b;
    }
    a
}

// 01: ""wolfe" if best.f - f0 <= (delta*best.x)*s0 and best.g >= sigma*s0".
fn wolfe_holds(s: Setup, p: Point) -> bool
    ensures { result ≡ wolfe_holds s p }
{
    (p.f - s.f0 <= (s.options.params.delta * p.x) * s.s0) & (p.g >= s.options.params.sigma * s.s0)
}

// 01: ""approximate" if (2*delta - 1)*s0 >= best.g, best.g >= sigma*s0 and best.f <= L".
fn approximate_holds(s: Setup, p: Point) -> bool
    ensures { result ≡ approximate_holds s p }
{
    ((2.0 * s.options.params.delta - 1.0) * s.s0 >= p.g)
        & (p.g >= s.options.params.sigma * s.s0)
        & (p.f <= s.level)
}

// 01: "Verdict, first that holds", of the best.
#[tactic(auto, unfolding(hagerzhang_rules::specs::Rules::judge_of))]
pub fn judge(s: Setup, p: Point) -> Option<Verdict>
    ensures { result ≡ judge_of s p }
{
    if wolfe_holds(s, p) {
        return Some(Verdict::Wolfe);
    }
    if approximate_holds(s, p) {
        return Some(Verdict::Approximate);
    }
    None
}
