// An example: backtracking with each of the four conditions, over a model of its own. The constants of a condition are
// checked first; two of them are bad, and are refused by number.

#![tactic(auto)]

use backtracking::Turn;
use conditions::Condition;
use refusals::Refusal;
use runs::{Machine, Outcome};
use streams::Sent;
use text::Cursor;

// ---- the model: a fan's power over its speed, 1 - 2x + 4x^2 from the present speed on

fn power(x: f64) -> f64 {
    1.0 - 2.0 * x + 4.0 * (x * x)
}

fn slope(x: f64) -> f64 {
    8.0 * x - 2.0
}

// ---- the search

// A line, by the function that writes it. `sent` goes from line to line: behind a write that failed nothing more is
// written. This and `answer_all` stand in both examples, since each is a whole program that is read alone.
fn print<F: FnOnce(&mut Cursor)>(rt: &(impl Print + Eprint), sent: &mut Sent, write: F)
    requires { F.IsAlwaysCallable write }
{
    let mut buffer = [0u8; 80];
    let mut line = Cursor::new(&mut buffer);
    write(&mut line);
    let n = line.at;
    sent.send(rt, &buffer, n);
}

// The model answers each step that is asked, until the search ends. It ends by itself, long before the count does: a
// proved loop has to have an end that the check can see.
fn answer_all(rt: &(impl Print + Eprint), first: Turn, sent: &mut Sent) {
    let mut t = first;
    for _ in 0..u32::MAX {
        print(rt, sent, |line| lines::turn(line, t));
        let Outcome::Ask(x) = t.outcome else {
            break;
        };
        t = t.search.answer(power(x), slope(x));
    }
}

// The first turn of the search, or why there is none: the condition's constants are bad, or the start is.
fn started(condition: Condition) -> Result<Turn, Refusal> {
    let fit = condition.checked()?;
    backtracking::start(backtracking::defaults(fit), power(0.0), slope(0.0))
}

// A condition whose constants are in their ranges is searched with; another one is refused.
fn try_condition(rt: &(impl Print + Eprint), condition: Condition, sent: &mut Sent) {
    match started(condition) {
        Ok(first) => answer_all(rt, first, sent),
        Err(refusal) => print(rt, sent, |line| lines::refused(line, refusal.number())),
    }
}

fn main(rt: HostRuntime) {
    let conditions = [
        Condition::Armijo { c: 0.0001 },
        Condition::Goldstein { c: 0.25 },
        Condition::Wolfe {
            c1: 0.0001,
            c2: 0.9,
        },
        Condition::StrongWolfe {
            c1: 0.0001,
            c2: 0.1,
        },
        // out of range (3), and not a number (2)
        Condition::Wolfe { c1: 0.9, c2: 0.1 },
        Condition::Armijo { c: f64::NAN },
    ];
    let mut sent = streams::nothing_sent();
    for condition in conditions {
        try_condition(&rt, condition, &mut sent);
    }
}
