// The search of the current case: how it starts, what an answer comes to, and the lines that close its case.

use backtracking::Backtracking;
use bodies::{BacktrackingStart, HagerZhangStart, Reply};
use hagerzhang::Search;
use refusals::Refusal;
use runs::{Counts, Evaluations, Iterations, Machine, Outcome, Turn};
use text::Cursor;

// It holds no `seats::Held`: the lines that close a case differ by kind, so both would be matched on all the same.
#[derive(Clone, Copy)]
pub(crate) enum Current {
    // before the first case, and after a dot or a point: there is none, and no answer may come
    Free,
    // its start was refused
    NoSearch,
    HagerZhang(Search),
    Backtracks(Backtracking),
}

impl Current {
    // Whether an answer may come.
    pub(crate) fn is_searching(self) -> bool {
        !matches!(self, Current::Free)
    }
}

// What a start or an answer comes to, with the counts that its line shows. It is no `Turn`: where a start was refused
// there is no search that has counted.
#[derive(Clone, Copy)]
pub(crate) struct Told {
    pub(crate) current: Current,
    pub(crate) outcome: Outcome,
    pub(crate) counts: Counts,
}

const NOTHING: Counts = Counts {
    evaluations: Evaluations(0),
    iterations: Iterations(0),
};

fn refused(r: Refusal) -> Told {
    Told {
        current: Current::NoSearch,
        outcome: Outcome::Refused(r),
        counts: NOTHING,
    }
}

// A turn of either kind; `kind` is the case of `Current` that its search is.
fn turned<M: Machine, K: FnOnce(M) -> Current>(t: Turn<M>, kind: K) -> Told
    requires { K.IsAlwaysCallable kind }
{
    Told {
        current: kind(t.search),
        outcome: t.outcome,
        counts: t.search.counts(),
    }
}

// A start of either kind.
fn started<M: Machine, K: FnOnce(M) -> Current>(r: Result<Turn<M>, Refusal>, kind: K) -> Told
    requires { K.IsAlwaysCallable kind }
{
    match r {
        Ok(t) => turned(t, kind),
        Err(refusal) => refused(refusal),
    }
}

pub(crate) fn hager_zhang(b: HagerZhangStart) -> Told {
    started(
        hagerzhang::start(b.options, b.f0, b.s0),
        Current::HagerZhang,
    )
}

pub(crate) fn backtracks(b: BacktrackingStart) -> Told {
    started(
        backtracking::start(b.options, b.f0, b.s0),
        Current::Backtracks,
    )
}

// An answer. Where the start was refused there is nobody else to refuse it; where there is no case the field is
// malformed, and never comes here.
pub(crate) fn answered(current: Current, y: Reply) -> Told {
    match current {
        Current::Free | Current::NoSearch => refused(Refusal::AlreadyOver),
        Current::HagerZhang(s) => turned(s.answer(y.cost, y.slope), Current::HagerZhang),
        Current::Backtracks(s) => turned(s.answer(y.cost, y.slope), Current::Backtracks),
    }
}

// The closing lines.
pub(crate) fn closed(page: &mut Cursor, current: Current) {
    match current {
        Current::Free => {}
        Current::NoSearch => lines::no_bracket(page, NOTHING),
        Current::HagerZhang(s) => lines::closing(page, s),
        Current::Backtracks(s) => lines::no_bracket(page, s.counts()),
    }
}
