// Prints every default of both searches, from the library: a line each with the search, the name and the value. A float
// is its 64 bits.

#![tactic(auto)]

use conditions::Condition;
use hagerzhang_rules::{Bounds, Way};
use text::Cursor;

// A line for each float, with its name.
fn floats(page: &mut Cursor, named: &[(&[u8], f64)]) {
    for (name, x) in named {
        page.floats_line(name, &[*x]);
    }
}

fn way(page: &mut Cursor, w: Way) {
    match w {
        Way::Bounded(Bounds { min, max }) => {
            floats(page, &[(b"hagerzhang min", min), (b"hagerzhang max", max)])
        }
        Way::Growing(k) => page.number_line(b"hagerzhang K ", u64::from(k)),
    }
}

// No rule reads eta.
fn hager_zhang(page: &mut Cursor) {
    let o = hagerzhang_parameters::defaults();
    let p = o.params;
    floats(
        page,
        &[
            (b"hagerzhang delta", p.delta),
            (b"hagerzhang sigma", p.sigma),
            (b"hagerzhang epsilon", p.epsilon),
            (b"hagerzhang theta", p.theta),
            (b"hagerzhang gamma", p.gamma),
            (b"hagerzhang eta", p.eta),
        ],
    );
    way(page, o.way);
    floats(page, &[(b"hagerzhang start", p.start)]);
    page.number_line(b"hagerzhang B ", u64::from(o.budget));
    page.number_line(b"hagerzhang N ", u64::from(o.limit));
}

// A condition has no default: whichever is given is handed on.
fn backtracks(page: &mut Cursor) {
    let o = backtracking::defaults(Condition::Armijo { c: 0.5 });
    floats(
        page,
        &[
            (b"backtracking rho", o.rho),
            (b"backtracking alpha", o.alpha),
        ],
    );
    page.number_line(b"backtracking N ", u64::from(o.limit));
}

fn main(rt: HostRuntime) {
    let mut buffer = [0u8; 4096];
    let mut page = Cursor::new(&mut buffer);
    hager_zhang(&mut page);
    backtracks(&mut page);
    let n = page.at;
    streams::nothing_sent().send(&rt, &buffer, n);
}
