// An example: a search over a plant model of one's own. The search asks a step, the model answers cost and slope there,
// and every outcome is printed as a line. The second plant has a dead sensor: the search says so, and does not go on.

#![tactic(auto)]

use hagerzhang::Turn;
use hagerzhang_rules::{Bounds, Options, Params, Way};
use runs::{Machine, Outcome};
use streams::Sent;
use text::Cursor;

// ---- the plant

// A chiller and the pump of its condenser water. More flow makes the chiller's work less and the pump's more. Above a
// flow the sensor is dead.
#[derive(Clone, Copy)]
struct Plant {
    chiller: f64,
    pump: f64,
    dead_above: f64,
}

impl Plant {
    // The power that both take at the flow x: a NaN where the sensor is dead.
    fn power(self, x: f64) -> f64 {
        if self.dead_above < x {
            return f64::NAN;
        }
        self.chiller / (x + 0.5) + self.pump * (x * x * x)
    }

    // How the power changes with the flow.
    fn slope(self, x: f64) -> f64 {
        3.0 * self.pump * (x * x) - self.chiller / ((x + 0.5) * (x + 0.5))
    }
}

// ---- the search

// The defaults, with the flows between which the plant may run, and no flow as the first guess.
fn options() -> Options {
    let d = hagerzhang_parameters::defaults();
    Options {
        params: Params {
            start: 0.0,
            ..d.params
        },
        way: Way::Bounded(Bounds { min: 0.0, max: 2.0 }),
        ..d
    }
}

// A line, by the function that writes it. `sent` goes from line to line: behind a write that failed nothing more is
// written. This and `answer_all` stand in both examples, since each is a whole program that is read alone.
fn print<F: FnOnce(&mut Cursor)>(rt: &(impl Print + Eprint), sent: &mut Sent, write: F)
    requires { F.IsAlwaysCallable write }
{
    let mut buffer = [0u8; 80];
    let mut line = Cursor::new(&mut buffer);
    write(&mut line);
    let n = line.at;
    sent.send(rt, &buffer, n);
}

// The model answers each step that is asked, until the search ends. It ends by itself, long before the count does: a
// proved loop has to have an end that the check can see.
fn answer_all(rt: &(impl Print + Eprint), p: Plant, first: Turn, sent: &mut Sent) {
    let mut t = first;
    for _ in 0..u32::MAX {
        print(rt, sent, |line| lines::turn(line, t));
        let Outcome::Ask(x) = t.outcome else {
            break;
        };
        t = t.search.answer(p.power(x), p.slope(x));
    }
}

// A start may be refused too: then there is no search, and the number says why.
fn optimise(rt: &(impl Print + Eprint), p: Plant, sent: &mut Sent) {
    match hagerzhang::start(options(), p.power(0.0), p.slope(0.0)) {
        Ok(first) => answer_all(rt, p, first, sent),
        Err(refusal) => print(rt, sent, |line| lines::refused(line, refusal.number())),
    }
}

fn main(rt: HostRuntime) {
    let sound = Plant {
        chiller: 2.0,
        pump: 1.0,
        dead_above: 100.0,
    };
    let dead = Plant {
        dead_above: 0.75,
        ..sound
    };
    let mut sent = streams::nothing_sent();
    optimise(&rt, sound, &mut sent);
    optimise(&rt, dead, &mut sent);
}
