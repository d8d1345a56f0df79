// The refusals that a search can give, and their numbers.

#![tactic(auto)]

ghost use Rattle.std.specs.Prelude.{◌≡◌};
ghost use Rattle.refusals.specs.Refusals.{number_of};

// 01's refusals that a search can give, and from 10 on 02's, each with its number.
#[derive(Clone, Copy, Debug, PartialEq, Eq)]
pub enum Refusal {
    // a number that was supplied is a NaN or an infinity
    SuppliedNotFinite = 2,
    // a parameter, the budget or the limit is outside its range
    OutOfRange = 3,
    // epsilon_k or L comes out a NaN or an infinity
    ResultNotFinite = 4,
    // the next trial step comes out a NaN or an infinity
    StepNotFinite = 5,
    // one U3 run has had its answers, and the last did not end it
    BudgetSpent = 6,
    // U3's next step is not strictly between its two ends
    StepNotBetween = 7,
    // the search is already over
    AlreadyOver = 8,
    // the slope at step 0 is not below 0, for a start that grows
    NotDownhill = 10,
    // the start step has grown as often as it may, and has not come to a bracket
    GrowthsSpent = 11,
}

impl Refusal {
    // The number by which 01 or 02 knows the refusal.
    pub fn number(self) -> u32
        ensures { result ≡ number_of self }
    {
        self as u32
    }
}
