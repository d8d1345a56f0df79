// Runs the job on standard input, and writes what its search tells to standard output, a line for each outcome.

#![tactic(auto)]

ghost use Rattle.play.proofs.Ending.{Playable};

use curves::Curve;
use hagerzhang::Turn;
use jobs::Refusal;
use text::Cursor;

// The lines of the whole play, as far as standard output takes them. It ends: each turn leaves less to tell.
fn tell(rt: &(impl Print + Eprint), c: Curve, first: Turn)
    requires { Playable c (Some first) }
{
    let mut buffer = [0u8; 65536];
    let mut sent = streams::nothing_sent();
    let mut left = Some(first);
    while let Some(t) = left {
        let mut page = Cursor::new(&mut buffer);
        left = play::play(c, Some(t), 512, &mut page);
        let n = page.at;
        sent.send(rt, &buffer, n);
        if sent.lost {
            return;
        }
    }
}

fn refuse(rt: &(impl Print + Eprint), refusal: Refusal) {
    let mut buffer = [0u8; 80];
    let mut page = Cursor::new(&mut buffer);
    lines::refused(&mut page, refusal.number());
    let n = page.at;
    streams::nothing_sent().send(rt, &buffer, n);
}

fn run(rt: &(impl Print + Eprint), job: &[u8]) {
    match jobs::begin(job) {
        Ok((c, t)) => tell(rt, c, t),
        Err(refusal) => refuse(rt, refusal),
    }
}

// The longest job has 55 bytes; one more shows that there is more, and that is malformed whatever follows. A read that
// fails is no end of the input: what was read before it is no job.
fn main(rt: HostRuntime) {
    let mut job = [0u8; 56];
    if let Ok(n) = streams::fill(&rt, &mut rt.stdin(), &mut job) {
        run(&rt, &job[..n]);
    }
}
