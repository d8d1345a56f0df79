// Reads cases from standard input, a search or a vector each, and shows what becomes of them. The crates case_files
// and bodies say how a case is written.

#![tactic(auto)]

mod input;
mod on_vectors;
mod searches;

ghost use Rattle.case_files.specs.CaseFiles.{Short};

use case_files::{Field, Malformed};
use input::Window;
use searches::{Current, Told};
use std::io::Read;
use streams::Sent;
use text::Cursor;

// ---- a field

// What the fields so far have come to: the search of the current case, and how many cases there were.
#[derive(Clone, Copy)]
struct Progress {
    current: Current,
    cases: u64,
}

fn told(page: &mut Cursor, t: Told) -> Current {
    lines::outcome(page, t.outcome, t.counts);
    t.current
}

// The first field of the case with this number, and the search that it begins. The others do not begin a case, and
// never come here.
fn begun(page: &mut Cursor, cases: u64, field: Field, body: &[u8]) -> Current
    requires { Short field }
{
    case_lines::head(page, cases);
    match field {
        Field::StartWhole => told(page, searches::hager_zhang(bodies::whole(body))),
        Field::StartHagerZhang => told(page, searches::hager_zhang(bodies::hager_zhang(body))),
        Field::StartBacktracking => told(page, searches::backtracks(bodies::backtracking(body))),
        Field::Dot(n, m) => {
            on_vectors::dot(page, body, n, m);
            Current::Free
        }
        Field::Point(n, m, k) => {
            on_vectors::point(page, body, n, m, k);
            Current::Free
        }
        Field::Answer => Current::Free,
    }
}

// The field with which s begins, at byte b of the input. All but an answer end the case before. Nothing is left where
// it is malformed, which ends the run.
fn served(page: &mut Cursor, s: &[u8], progress: Progress, b: u64) -> Option<Progress> {
    let Progress { current, cases } = progress;
    let body = fields::body(s);
    let field = case_files::read(s, current.is_searching());
    if let Ok(Field::Answer) = field {
        let current = told(page, searches::answered(current, bodies::answer(body)));
        return Some(Progress { current, cases });
    }
    searches::closed(page, current);
    match field {
        Ok(field) => {
            let cases = cases.saturating_add(1);
            let current = begun(page, cases, field, body);
            Some(Progress { current, cases })
        }
        Err(Malformed) => {
            case_lines::malformed(page, b);
            None
        }
    }
}

// ---- the run

// Writes out what is told, and begins the page anew.
fn write_out(rt: &(impl Print + Eprint), sent: &mut Sent, page: &mut Cursor) {
    let n = page.at;
    sent.send(rt, page.buffer, n);
    page.at = 0;
}

// While more may come a field is served only where it is decided. Before the program waits for more it writes out all
// that is told, so that whoever asks over a pipe gets the answer. Each field finds room for its lines. Where a
// write or a read failed nothing more is told: no case is closed, since none has ended. A proved loop has to end, and
// nothing says that an input does: it counts its turns.
fn run(rt: &(impl Print + Eprint), input: &mut impl Read, window: &mut Window, page: &mut Cursor) {
    let mut progress = Progress {
        current: Current::Free,
        cases: 0,
    };
    let mut sent = streams::nothing_sent();
    for _ in 0..u64::MAX {
        let waits = window.waits();
        if waits || 50000 <= page.at {
            write_out(rt, &mut sent, page);
            if sent.lost {
                return;
            }
        }
        if waits {
            if window.refill(rt, input).is_err() {
                return;
            }
            continue;
        }
        if window.part().is_empty() {
            break;
        }
        let Some(next) = served(page, window.part(), progress, window.begins()) else {
            write_out(rt, &mut sent, page);
            return;
        };
        progress = next;
        window.pass();
    }
    searches::closed(page, progress.current);
    write_out(rt, &mut sent, page);
}

fn main(rt: HostRuntime) {
    let mut buffer = [0u8; 65536];
    let mut out = [0u8; 65536];
    run(
        &rt,
        &mut rt.stdin(),
        &mut Window::new(&mut buffer),
        &mut Cursor::new(&mut out),
    );
}
