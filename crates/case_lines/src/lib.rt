// A case's own lines: its head, what a dot and a point come to, and where a file is malformed. Each function writes at
// a cursor as the methods of the crate text do. docs/FORMATS.md has all lines; h stands there for a float's 64 bits in
// hex.

#![tactic(auto)]

ghost use Rattle.text.specs.Text.{Writes};
ghost use Rattle.vectors.specs.Told.{fault_of};
ghost use Rattle.case_lines.specs.CaseLines.{head_line, malformed_line};
ghost use Rattle.case_lines.specs.CaseLines.{value_line, refused_at_line, fault_line, buffer_line};

use text::Cursor;
use vectors::Refusal;

// `CASE k`, the head of the case with number k.
pub fn head(page: &mut Cursor, k: u64)
    ensures { Writes page.old (head_line k) page.new }
{
    page.number_line(b"CASE ", k);
}

// `MALFORMED at b`, of a field that began at byte b.
pub fn malformed(page: &mut Cursor, b: u64)
    ensures { Writes page.old (malformed_line b) page.new }
{
    page.number_line(b"MALFORMED at ", b);
}

// ---- a dot or a point

// `VALUE h`, of a dot.
pub fn value(page: &mut Cursor, x: f64)
    ensures { Writes page.old (value_line x) page.new }
{
    page.floats_line(b"VALUE", &[x]);
}

// `REFUSED n at i`, with an index.
fn refused_at(page: &mut Cursor, n: u32, i: usize)
    ensures { Writes page.old (refused_at_line n i) page.new }
{
    page.word(b"REFUSED ");
    page.decimal(u64::from(n));
    page.number_line(b" at ", i as u64);
}

// `REFUSED 1`, `REFUSED 2 at i` or `REFUSED 4 at i`, of a dot or a point.
pub fn fault(page: &mut Cursor, k: Refusal)
    ensures { Writes page.old (fault_line (fault_of k)) page.new }
{
    let n = k.number();
    match k {
        Refusal::Lengths => lines::refused(page, n),
        Refusal::SuppliedNotFinite(i) | Refusal::ResultNotFinite(i) => refused_at(page, n, i),
    }
}

// `OUT h ..`, the numbers that a point's buffer holds.
pub fn buffer(page: &mut Cursor, xs: &[f64])
    ensures { Writes page.old (buffer_line xs.now) page.new }
{
    page.floats_line(b"OUT", xs);
}
