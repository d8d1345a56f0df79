// The play of a Hager-Zhang search over a curve: the curve answers each step that is asked, and every outcome is
// written as a line.

#![tactic(auto)]

ghost use Rattle.std.specs.Prelude.{◌≡◌};
ghost use Rattle.text.specs.Text.{Writes};
ghost use Rattle.play.specs.Telling.{said_line};
ghost use Rattle.play.specs.Playing.{said_of, answered_of, PlaySaid};

use curves::Curve;
use hagerzhang::Turn;
use runs::{Machine, Outcome};
use text::Cursor;

// The line of a turn's outcome.
fn line(page: &mut Cursor, t: Turn)
    ensures { Writes page.old (said_line (said_of t)) page.new }
{
    lines::turn(page, t);
}

// The curve answers a step that is asked; any other outcome is the last.
#[tactic(auto, unfolding(crate::specs::Playing::answered_by))]
fn answered(c: Curve, t: Turn) -> Option<Turn>
    ensures { result ≡ answered_of c t }
{
    match t.outcome {
        Outcome::Ask(x) => Some(t.search.answer(c.value(x), c.slope(x))),
        Outcome::Stop(..) | Outcome::Limit(_) | Outcome::Refused(_) => None,
    }
}

// Plays on for so many turns at most: each writes a line, as much as there is room for. What is left is the turn whose
// outcome is still to be told, or none where everything is told.
pub fn play(c: Curve, from: Option<Turn>, turns: u32, page: &mut Cursor) -> Option<Turn>
    ensures { PlaySaid c from turns page.old result page.new }
{
    let mut played = from;
    for _ in 0..turns {
        let Some(t) = played else {
            break;
        };
        line(page, t);
        played = answered(c, t);
    }
    played
}
