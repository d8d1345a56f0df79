// 01's "Parameters" of Hager-Zhang: the defaults, and the tests of a start for refusals 2 and 3; and what 02's request
// 3 adds to them, with refusal 10. The types and the rules' text are hagerzhang_rules'.

#![tactic(auto)]

ghost use Rattle.std.specs.Prelude.{◌≡◌};
ghost use Rattle.hagerzhang_rules.specs.Parameters.{
  default_options,
  params_finite,
  way_finite,
  options_finite,
  supplied_finite,
  way_in_range,
  in_ranges,
  not_downhill,
};

use hagerzhang_rules::{Bounds, EPS, Options, Params, Way};

// 01: "delta 0.1, sigma 0.9 .. epsilon 1e-6 .. theta 0.5, gamma 0.66 .. eta 0.01 .. Bounds 2^-52 and 1e5 .. Start step
// c: 1"; B and N: "(default 100)". 02, request 2, of the upper bound: "The default becomes 64."
pub fn defaults() -> Options
    ensures { result ≡ default_options }
{
    Options {
        params: Params {
            delta: 0.1,
            sigma: 0.9,
            epsilon: 1e-6,
            theta: 0.5,
            gamma: 0.66,
            eta: 0.01,
            start: 1.0,
        },
        way: Way::Bounded(Bounds {
            min: EPS,
            max: 64.0,
        }),
        budget: 100,
        limit: 100,
    }
}

// ---- refusal 2: "a supplied number is NaN or infinite"

fn params_finite(p: Params) -> bool
    ensures { result ≡ params_finite p }
{
    numbers::both_finite(p.delta, p.sigma)
        & numbers::is_finite(p.epsilon)
        & numbers::is_finite(p.theta)
        & numbers::is_finite(p.gamma)
        & numbers::is_finite(p.eta)
        & numbers::is_finite(p.start)
}

// 02, request 3: "The bounds are not read", of a start that grows; it has none.
fn way_finite(way: Way) -> bool
    ensures { result ≡ way_finite way }
{
    match way {
        Way::Bounded(e) => numbers::both_finite(e.min, e.max),
        Way::Growing(_) => true,
    }
}

// Of the options alone, since a job supplies no more.
pub fn options_finite(o: Options) -> bool
    ensures { result ≡ options_finite o }
{
    params_finite(o.params) & way_finite(o.way)
}

// Of a start: f0 and s0 are supplied too.
pub fn supplied_finite(o: Options, f0: f64, s0: f64) -> bool
    ensures { result ≡ supplied_finite o f0 s0 }
{
    options_finite(o) & numbers::is_finite(f0) & numbers::is_finite(s0)
}

// ---- refusal 3: "a parameter, B, N .. is outside its range"

// "0 <= min < max". 02, request 3: "K from 1 to 400"; "3 for a bad K or a start step not above 0".
fn way_in_range(way: Way, start: f64) -> bool
    ensures { result ≡ way_in_range way start }
{
    match way {
        Way::Bounded(e) => (0.0 <= e.min) & (e.min < e.max),
        Way::Growing(k) => (1 <= k) & (k <= 400) & (0.0 < start),
    }
}

pub fn in_ranges(o: Options) -> bool
    ensures { result ≡ in_ranges o }
{
    let p = o.params;
    // "0 < delta < 1, delta <= sigma < 1"
    let wolfe = (0.0 < p.delta) & (p.delta < 1.0) & (p.delta <= p.sigma) & (p.sigma < 1.0);
    // "epsilon ..: >= 0. theta .., gamma ..: in (0, 1). eta ..: > 0"
    let factors = (0.0 <= p.epsilon)
        & (0.0 < p.theta)
        & (p.theta < 1.0)
        & (0.0 < p.gamma)
        & (p.gamma < 1.0)
        & (0.0 < p.eta);
    let steps = way_in_range(o.way, p.start);
    // "U3 budget B is 1 to 1,000 ..; iteration limit N is 1 to 10,000"
    let budget = (1 <= o.budget) & (o.budget <= 1000);
    let limit = (1 <= o.limit) & (o.limit <= 10000);
    wolfe & factors & steps & (budget & limit)
}

// Refusal 10 (02, request 3): "if s0 >= 0". 01 of its start: "The sign of s0 is not checked."
pub fn not_downhill(way: Way, s0: f64) -> bool
    ensures { result ≡ not_downhill way s0 }
{
    match way {
        Way::Bounded(_) => false,
        Way::Growing(_) => s0 >= 0.0,
    }
}
