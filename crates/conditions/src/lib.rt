// The four conditions that a step can be held to, each with its constants (argmin's condition/armijo.rs, goldstein.rs,
// wolfe.rs, strongwolfe.rs).

#![tactic(auto)]

ghost use Rattle.std.specs.Prelude.{◌≡◌};
ghost use Rattle.conditions.specs.Conditions.{constants_finite, in_range, needs_slope, answer_finite, holds_of};
ghost use Rattle.conditions.specs.Told.{CheckedSaid};

use refusals::Refusal;

#[derive(Clone, Copy)]
pub enum Condition {
    Armijo { c: f64 },
    Goldstein { c: f64 },
    Wolfe { c1: f64, c2: f64 },
    StrongWolfe { c1: f64, c2: f64 },
}

impl Condition {
    // 01, of NaN constants: "we refuse it (2)."
    pub fn constants_finite(self) -> bool
        ensures { result ≡ constants_finite self }
    {
        match self {
            Condition::Armijo { c } | Condition::Goldstein { c } => numbers::is_finite(c),
            Condition::Wolfe { c1, c2 } | Condition::StrongWolfe { c1, c2 } => {
                numbers::both_finite(c1, c2)
            }
        }
    }

    // 01: "Armijo c in (0, 1); Goldstein c in (0, 0.5); Wolfe and strong Wolfe 0 < c1 < c2 < 1."
    pub fn in_range(self) -> bool
        ensures { result ≡ in_range self }
    {
        match self {
            Condition::Armijo { c } => (0.0 < c) & (c < 1.0),
            Condition::Goldstein { c } => (0.0 < c) & (c < 0.5),
            Condition::Wolfe { c1, c2 } | Condition::StrongWolfe { c1, c2 } => {
                (0.0 < c1) & (c1 < c2) & (c2 < 1.0)
            }
        }
    }

    // The condition, where its constants are in their ranges; or why they are not, refusal 2 before refusal 3.
    pub fn checked(self) -> Result<Condition, Refusal>
        ensures { CheckedSaid self result }
    {
        if !self.constants_finite() {
            return Err(Refusal::SuppliedNotFinite);
        }
        if !self.in_range() {
            return Err(Refusal::OutOfRange);
        }
        Ok(self)
    }

    // 01: "Only the Wolfe pair needs a slope at t."
    pub fn needs_slope(self) -> bool
        ensures { result ≡ needs_slope self }
    {
        match self {
            Condition::Armijo { .. } | Condition::Goldstein { .. } => false,
            Condition::Wolfe { .. } | Condition::StrongWolfe { .. } => true,
        }
    }

    // 01: "An answer counts as finite when the numbers its condition needs are finite."
    pub fn answer_finite(self, f: f64, s: f64) -> bool
        ensures { result ≡ answer_finite self f s }
    {
        if self.needs_slope() {
            numbers::both_finite(f, s)
        } else {
            numbers::is_finite(f)
        }
    }

    // Whether the step t with cost f and slope s meets the condition, for a search that starts at cost f0 and slope s0.
    // The bare test: where a NaN stands it is false, so a search asks `answer_finite` first.
    pub fn holds(self, f0: f64, s0: f64, t: f64, f: f64, s: f64) -> bool
        ensures { result ≡ holds_of self f0 s0 t f s }
    {
        match self {
            Condition::Armijo { c } => f <= f0 + (c * t) * s0,
            Condition::Goldstein { c } => {
                let m = t * s0;
                (f0 + (1.0 - c) * m <= f) & (f <= f0 + c * m)
            }
            Condition::Wolfe { c1, c2 } => (f <= f0 + (c1 * t) * s0) & (s >= c2 * s0),
            Condition::StrongWolfe { c1, c2 } => {
                let slope = numbers::abs(s);
                let start_slope = numbers::abs(s0);
                (f <= f0 + (c1 * t) * s0) & (slope <= c2 * start_slope)
            }
        }
    }
}
