// What the programs show of a search, as lines of text: an outcome, and the lines that close a search. Each function
// writes at a cursor as the methods of the crate text do. docs/FORMATS.md has all lines; h stands there for a float's
// 64 bits in hex.

#![tactic(auto)]

ghost use Rattle.std.specs.Prelude.{◌++◌};
ghost use Rattle.runs.specs.Outcomes.{verdict_word, told};
ghost use Rattle.text.specs.Text.{Writes, bytes};
ghost use Rattle.hagerzhang.specs.Meaning.{report};
ghost use Rattle.lines.specs.Lines.{verdict_text, counts_of, stop_line, limit_line, refused_line, outcome_line};
ghost use Rattle.lines.specs.Closing.{no_bracket_text, points_text, closing_text};

use hagerzhang::{Finished, Search};
use runs::{Counts, Machine, Outcome, Turn, Verdict};
use text::Cursor;

// ---- an outcome: ASK, STOP, LIMIT or REFUSED

// ` evaluations e iterations i`, with which a line ends.
fn counts(page: &mut Cursor, c: Counts)
    ensures { Writes page.old (counts_of c) page.new }
{
    page.word(b" evaluations ");
    page.decimal(u64::from(c.evaluations.0));
    page.number_line(b" iterations ", u64::from(c.iterations.0));
}

// `REFUSED n`
pub fn refused(page: &mut Cursor, n: u32)
    ensures { Writes page.old (refused_line n) page.new }
{
    page.number_line(b"REFUSED ", u64::from(n));
}

// `STOP word`, the beginning of a stop's line. It is no Display, which would not say what a full buffer holds.
fn verdict(page: &mut Cursor, v: Verdict)
    ensures { Writes page.old (bytes "STOP " ++ verdict_text (verdict_word v)) page.new }
{
    match v {
        Verdict::Met => page.word(b"STOP met"),
        Verdict::Wolfe => page.word(b"STOP wolfe"),
        Verdict::Approximate => page.word(b"STOP approximate"),
    }
}

// `STOP word h evaluations e iterations i`
fn stop(page: &mut Cursor, v: Verdict, x: f64, c: Counts)
    ensures { Writes page.old (stop_line (verdict_word v) x c.evaluations.0 c.iterations.0) page.new }
{
    verdict(page, v);
    page.float(x);
    counts(page, c);
}

// `LIMIT h evaluations e iterations i`
fn limit(page: &mut Cursor, x: f64, c: Counts)
    ensures { Writes page.old (limit_line x c.evaluations.0 c.iterations.0) page.new }
{
    page.word(b"LIMIT");
    page.float(x);
    counts(page, c);
}

// The line of an outcome, of a search with these counts. An ask is `ASK h`.
pub fn outcome(page: &mut Cursor, o: Outcome, c: Counts)
    ensures { Writes page.old (outcome_line (told o) c.evaluations.0 c.iterations.0) page.new }
{
    match o {
        Outcome::Ask(x) => page.floats_line(b"ASK", &[x]),
        Outcome::Stop(v, x) => stop(page, v, x, c),
        Outcome::Limit(x) => limit(page, x, c),
        Outcome::Refused(k) => refused(page, k.number()),
    }
}

// The line of what a search of either kind says.
pub fn turn<M: Machine>(page: &mut Cursor, t: Turn<M>)
    ensures { Writes page.old
        (outcome_line (told t.outcome) (M.counted t.search).evaluations.0 (M.counted t.search).iterations.0)
        page.new }
{
    outcome(page, t.outcome, t.search.counts());
}

// ---- the three lines that close a search: its bracket, its best and its counts

// Of a search that has neither bracket nor best: `BRACKET none`, `BEST none`, `COUNTS evaluations e iterations i`.
pub fn no_bracket(page: &mut Cursor, c: Counts)
    ensures { Writes page.old (no_bracket_text c.evaluations.0 c.iterations.0) page.new }
{
    page.word(b"BRACKET none\nBEST none\nCOUNTS");
    counts(page, c);
}

// `BRACKET` and `BEST`, of the last finished iteration, or of the start.
fn points(page: &mut Cursor, f: Finished)
    ensures { Writes page.old (points_text f.bracket f.best) page.new }
{
    let a = f.bracket.a;
    let b = f.bracket.b;
    page.floats_line(b"BRACKET", &[a.x, a.f, a.g, b.x, b.f, b.g]);
    let best = f.best;
    page.floats_line(b"BEST", &[best.x, best.f, best.g]);
}

// Of a Hager-Zhang search as it stands.
pub fn closing(page: &mut Cursor, s: Search)
    ensures { Writes page.old (closing_text (report s) s.evaluations.0) page.new }
{
    let Some(f) = s.held() else {
        return no_bracket(page, s.counts());
    };
    points(page, f);
    page.word(b"COUNTS");
    counts(page, s.counts());
}
