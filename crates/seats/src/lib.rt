// A seat: a search of either kind, with what it last told. How a search comes to sit, and what an answer leaves.

#![tactic(auto)]

ghost use Rattle.std.specs.Prelude.{◌≡◌};
ghost use Rattle.seats.specs.Seats.{seat_of, hager_zhang_seat, backtracking_seat, answered_by, counted_of, is_over};
ghost use Rattle.seats.specs.Over.{stays};

use backtracking::Backtracking;
use hagerzhang::Search;
use runs::{Counts, Machine, Outcome};

#[derive(Clone, Copy)]
pub enum Held {
    HagerZhang(Search),
    Backtracks(Backtracking),
}

// The search, and what it last told.
pub type Seat = runs::Turn<Held>;

fn seated(held: Held, outcome: Outcome) -> Seat
    ensures { result ≡ seat_of held outcome }
{
    Seat {
        search: held,
        outcome,
    }
}

// The search that a start or an answer gave, with what it told. One function for either kind would want a `From` for
// each case of `Held` besides, and is no plainer.
pub fn hager_zhang(turn: hagerzhang::Turn) -> Seat
    ensures { result ≡ hager_zhang_seat turn }
{
    seated(Held::HagerZhang(turn.search), turn.outcome)
}

pub fn backtracks(turn: backtracking::Turn) -> Seat
    ensures { result ≡ backtracking_seat turn }
{
    seated(Held::Backtracks(turn.search), turn.outcome)
}

// One answer is what `answer` of its kind gives, and it has counted what its kind counts.
impl Machine for Held {
    ghost turn = { answered_by };

    ghost counted = { counted_of };

    ghost over = { is_over };

    ghost stays = { stays };

    #[tactic(auto, unfolding(crate::specs::Seats::answered_by))]
    fn answer(self, f: f64, g: f64) -> Seat {
        match self {
            Held::HagerZhang(search) => hager_zhang(search.answer(f, g)),
            Held::Backtracks(search) => backtracks(search.answer(f, g)),
        }
    }

    fn counts(self) -> Counts {
        match self {
            Held::HagerZhang(search) => search.counts(),
            Held::Backtracks(search) => search.counts(),
        }
    }
}
