// Up to 32 searches of either kind in one table, and one call that gives many of them their answers.

#![tactic(auto)]

ghost use Rattle.std.specs.Prelude.{◌≡◌};
ghost use Rattle.answers.specs.Answers.{answers_in};
ghost use Rattle.tables.specs.Tables.{idle_search, vacant_seat, empty_table, seated_of, given_to, ScanSaid};

use backtracking::{Backtracking, Options, Setup, Stage};
use conditions::Condition;
use refusals::Refusal;
use runs::{Evaluations, Iterations, Machine, Outcome};
use seats::{Held, Seat};

// An array with a size beside it: memory is fixed here, and the theorems of ManyAnswers read both, also of a table that
// was made by hand and says that it has more than its seats.
#[derive(Clone, Copy)]
pub struct Table {
    pub seats: [Seat; 32],
    // how many searches sit in it, in the first seats: the place of its seat is a search's number
    pub size: u32,
}

// The two answers below give the table by value, and what was said has a name: the theorems of ManyAnswers read both.
#[derive(Clone, Copy)]
pub struct Seated {
    pub table: Table,
    // the number of its seat, or none where all 32 seats are taken
    pub place: Option<u32>,
}

#[derive(Clone, Copy)]
pub struct Scanned {
    pub table: Table,
    // where the list is refused the table is as it was
    pub checked: Result<(), answers::Refusal>,
}

// What stands in a seat that no search has taken: one that is over. The theorems on a table speak of it, and of the
// size, so a seat is no Option.
fn idle() -> Backtracking
    ensures { result ≡ idle_search }
{
    Backtracking {
        setup: Setup {
            options: Options {
                condition: Condition::Armijo { c: 0.0 },
                rho: 0.0,
                alpha: 0.0,
                limit: 0,
            },
            f0: 0.0,
            s0: 0.0,
        },
        evaluations: Evaluations(0),
        iterations: Iterations(0),
        stage: Stage::Over,
    }
}

fn vacant() -> Seat
    ensures { result ≡ vacant_seat }
{
    Seat {
        search: Held::Backtracks(idle()),
        outcome: Outcome::Refused(Refusal::AlreadyOver),
    }
}

// A table with no search in it.
pub fn empty() -> Table
    ensures { result ≡ empty_table }
{
    let seat = vacant();
    Table {
        seats: [seat; 32],
        size: 0,
    }
}

// A search takes the next seat.
#[tactic(auto, unfolding(crate::specs::Tables::seated_of))]
pub fn add(t: Table, s: Seat) -> Seated
    ensures { result ≡ seated_of t s }
{
    let n = t.size;
    if n < 32 {
        let mut table = t;
        table.seats[n as usize] = s;
        table.size = n + 1;
        // it leaves here: as the value of the `if` the ten kilobytes would be copied once more
        return Seated {
            table,
            place: Some(n),
        };
    }
    Seated {
        table: t,
        place: None,
    }
}

// The answers, one at a time: each goes to its own search, in the table itself. One that names no search goes nowhere.
fn given(t: Table, list: &[f64]) -> Table
    ensures { result ≡ given_to t (answers_in list.now) }
{
    let mut table = t;
    for &[number, cost, slope] in list.as_chunks::<3>().0 {
        if let Some(n) = answers::number(number) {
            let seat = &mut table.seats[n as usize];
            *seat = seat.search.answer(cost, slope);
        }
    }
    table
}

// Gives every answer of the list to the search that it names, in list order; or says why it gives none. The list has
// number, cost and slope of each, end to end.
pub fn scan(t: Table, list: &[f64]) -> Scanned
    ensures { ScanSaid t list.now result }
{
    let checked = answers::check(list, t.size);
    let table = if checked.is_ok() { given(t, list) } else { t };
    Scanned { table, checked }
}
