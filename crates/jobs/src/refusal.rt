// Why a job begins no search.

ghost use Rattle.std.specs.Prelude.{◌≡◌};

use fields::Malformed;

#[derive(Clone, Copy, Debug, PartialEq, Eq)]
pub enum Refusal {
    // 9: the bytes are no job
    Malformed,
    // 2, 3 or 4: no search starts
    NoSearch(refusals::Refusal),
}

impl Refusal {
    ghost use Rattle.jobs.specs.Opening.{refusal_number};

    // The number by which 01 knows the refusal. A case carries a search's, so it is no cast.
    pub fn number(self) -> u32
        ensures { result ≡ refusal_number self }
    {
        match self {
            Refusal::Malformed => 9,
            Refusal::NoSearch(k) => k.number(),
        }
    }
}

impl From<Malformed> for Refusal {
    ghost use Rattle.jobs.specs.declared.refusal.Refusal.TheVariants as Variants;

    ghost from_gives = { λ _ r. r ≡ Variants.Malformed };

    fn from(_e: Malformed) -> Self {
        Self::Malformed
    }
}

impl From<refusals::Refusal> for Refusal {
    ghost use Rattle.jobs.specs.declared.refusal.Refusal.TheVariants as Variants;

    ghost from_gives = { λ k r. r ≡ Variants.NoSearch k };

    fn from(k: refusals::Refusal) -> Self {
        Self::NoSearch(k)
    }
}
