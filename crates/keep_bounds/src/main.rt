// Passes standard input on to standard output: a job that has no field 2 with one that has the old bounds, a job that
// has one and whatever is no job byte for byte.

#![tactic(auto)]

use std::io::Read;
use streams::Sent;
use text::Cursor;

// What is behind the first bytes, as it comes. All that was read was written, so both have the same count. A proved
// loop has to end, and nothing says that an input does: so it has a number of turns.
fn pass_on(rt: &(impl Print + Eprint), input: &mut impl Read, sent: &mut Sent) {
    let mut page = [0u8; 65536];
    for _ in 0..u64::MAX {
        if sent.lost {
            return;
        }
        let Ok(Some(n)) = streams::receive(rt, input, &mut page, sent.bytes) else {
            return;
        };
        sent.send(rt, &page, n);
    }
}

// The first bytes, and where there are 56, what is behind them: the longest job has 55, so more than these are none.
fn run(rt: &(impl Print + Eprint), input: &mut impl Read, first: &[u8]) {
    let mut buffer = [0u8; 56];
    let mut page = Cursor::new(&mut buffer);
    stored_jobs::with_bounds(&mut page, first);
    let n = page.at;
    let mut sent = streams::nothing_sent();
    sent.send(rt, &buffer, n);
    if first.len() == 56 {
        pass_on(rt, input, &mut sent);
    }
}

// A read that fails is no end of the input: what was read before it may not be all of the job, and is not written.
fn main(rt: HostRuntime) {
    let mut input = rt.stdin();
    let mut first = [0u8; 56];
    if let Ok(n) = streams::fill(&rt, &mut input, &mut first) {
        run(&rt, &mut input, &first[..n]);
    }
}
