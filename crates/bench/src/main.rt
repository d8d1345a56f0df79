// Times Hager-Zhang: searches over the eight sample curves, one after the other, and prints the sum of all steps as its
// bits. With an argument it gives 50 million answers, without one a thousand. bench/twin.rs is the same in plain Rust,
// and bench/run compares the two.

#![tactic(auto)]

use curves::Curve;
use hagerzhang::{Search, Stage};
use hagerzhang_rules::{Bounds, Options, Params, Setup, Way};
use runs::{Evaluations, Machine, Outcome};
use std::io::Write;
use std::rt::Env;

// The sum of the steps, and how many answers are left to give.
#[derive(Clone, Copy)]
struct Tally {
    sum: f64,
    left: usize,
}

fn chosen() -> Options {
    let d = hagerzhang_parameters::defaults();
    Options {
        params: Params {
            start: 0.7,
            ..d.params
        },
        way: Way::Bounded(Bounds {
            min: 0.0,
            max: 64.0,
        }),
        ..d
    }
}

fn flat() -> Curve {
    Curve {
        c0: 0.0,
        c1: 0.0,
        c2: 0.0,
        c3: 0.0,
        c4: 0.0,
    }
}

fn curve_of(n: u32) -> Curve {
    curves::numbered(n).unwrap_or(flat())
}

// The search that starts on the curve, or one that is over where it is refused.
fn search_on(c: Curve) -> Search {
    let options = chosen();
    let f0 = c.value(0.0);
    let s0 = c.slope(0.0);
    match hagerzhang::start(options, f0, s0) {
        Ok(turn) => turn.search,
        Err(_) => Search {
            setup: Setup {
                options,
                f0,
                s0,
                level: f0,
            },
            evaluations: Evaluations(0),
            stage: Stage::Over(None),
        },
    }
}

// One search on the curve n: its state stays in locals, and `answer` is called at one place. That is for speed: a loop
// over all curves took 1.3 to 1.5 s where this takes 0.7 to 0.8. Of a refusal, which does not come, 1.0 is as good.
fn play(n: u32, from: Tally) -> Tally {
    let c = curve_of(n);
    let mut s = search_on(c);
    let mut x = 0.0;
    let mut sum = from.sum;
    for left in (0..from.left).rev() {
        let turn = s.answer(c.value(x), c.slope(x));
        s = turn.search;
        let end = match turn.outcome {
            Outcome::Ask(y) => {
                x = y;
                sum += y;
                continue;
            }
            Outcome::Stop(_, y) | Outcome::Limit(y) => y,
            Outcome::Refused(_) => 1.0,
        };
        return Tally {
            sum: sum + end,
            left,
        };
    }
    Tally { sum, left: 0 }
}

// Searches over the curves in turn. Each takes an answer at least, so there are no more of them than answers.
fn run(turns: usize) -> f64 {
    let mut tally = Tally {
        sum: 0.0,
        left: turns,
    };
    for n in (1..=curves::COUNT).cycle().take(turns) {
        if tally.left == 0 {
            break;
        }
        tally = play(n, tally);
    }
    tally.sum
}

// An argument that is not empty and has at most four bytes asks for the long run.
fn main(rt: HostRuntime) {
    let mut arg = [0u8; 4];
    let turns = match rt.arg(1, &mut arg) {
        Ok(1..) => 50_000_000,
        _ => 1000,
    };
    let bits = numbers::bits_of(run(turns));
    let mut line = [0u8; 17];
    let mut room = &mut line[..];
    let _ = writeln!(room, "{bits:016x}");
    streams::nothing_sent().send(&rt, &line, 17);
}
