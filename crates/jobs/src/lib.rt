// 01's jobs: tagged fields, read as the parameters of a search over one of the sample curves; and the search of a job,
// by 01's refusals 9, 2, 3 and 4 over the whole job, in that order.

#![tactic(auto)]

ghost use Rattle.std.specs.Prelude.{◌≡◌};
ghost use Rattle.std.specs.Option.{option_copied};
ghost use Rattle.wire.specs.Wire.{pair_of};
ghost use Rattle.refusals.specs.Results.{value};
ghost use Rattle.refusals.specs.Refusals.{by_number};
ghost use Rattle.hagerzhang_rules.specs.Parameters.{default_options};
ghost use Rattle.jobs.specs.Format.{way_in, options_of};
ghost use Rattle.jobs.specs.Opening.{over_curve, begun_by, BeginSaid};
ghost use Rattle.jobs.specs.Reader.{found, behind, ReadSaid};
ghost use Rattle.jobs.specs.Tags.{tag_of, length_of};

use curves::Curve;
pub use fields::Malformed;
use hagerzhang::Turn;
use hagerzhang_rules::{Bounds, Options, Params, Way};
pub use refusal::Refusal;

mod refusal; // why a job begins no search

// ---- a job, read from bytes

#[derive(Clone, Copy)]
pub struct Job {
    // the curve's number, as the job has it
    pub curve: u32,
    pub options: Options,
}

// The fields of a job, with their tags.
#[derive(Clone, Copy)]
enum Tag {
    Curve = 1,
    Bounds = 2,
    Start = 3,
    Epsilon = 4,
    Budget = 5,
    Limit = 6,
}

impl Tag {
    // How long the body of such a field is.
    fn size(self) -> usize
        ensures { result ≡ length_of self }
    {
        match self {
            Tag::Curve => 1,
            Tag::Bounds => 16,
            Tag::Start | Tag::Epsilon => 8,
            Tag::Budget | Tag::Limit => 2,
        }
    }
}

// The body of the field with this tag, where the bytes begin with one; and what is behind it, which is all of the bytes
// where it is absent.
#[tactic(auto, unfolding(crate::specs::Reader::stands, crate::specs::Reader::found, crate::specs::Reader::behind))]
fn field(s: &[u8], tag: Tag) -> (Option<&[u8]>, &[u8])
    ensures body { option_copied result.0 ≡ found (tag_of tag) (length_of tag) s.now }
    ensures rest { result.1.now ≡ behind (tag_of tag) (length_of tag) s.now }
{
    match fields::head(s) {
        Some(h) if h.tag == tag as u8 && h.size == tag.size() => {
            (Some(fields::body(s)), &s[fields::end(s)..])
        }
        _ => (None, s),
    }
}

// The way of starting that the body of field 2 says.
fn way(body: &[u8]) -> Way
    ensures { result ≡ way_in body.now }
{
    Way::Bounded(Bounds {
        min: wire::float(body),
        max: wire::float(wire::from(body, 8)),
    })
}

// The number that a body is.
fn count(body: &[u8]) -> u32
    ensures { result ≡ pair_of body.now }
{
    wire::pair(body) as u32
}

// What the bodies of the fields 2 to 6 say, over 01's defaults.
fn options(
    bounds: Option<&[u8]>,
    start: Option<&[u8]>,
    epsilon: Option<&[u8]>,
    budget: Option<&[u8]>,
    limit: Option<&[u8]>,
) -> Options
    ensures { result ≡ options_of default_options (option_copied bounds.entry)
        (option_copied start.entry) (option_copied epsilon.entry) (option_copied budget.entry)
        (option_copied limit.entry) }
{
    let d = hagerzhang_parameters::defaults();
    Options {
        params: Params {
            epsilon: epsilon.map_or(d.params.epsilon, wire::float),
            start: start.map_or(d.params.start, wire::float),
            ..d.params
        },
        way: bounds.map_or(d.way, way),
        budget: budget.map_or(d.budget, count),
        limit: limit.map_or(d.limit, count),
    }
}

// The job, for any bytes: in the order of the tags each field is there or not, and nothing may be left.
pub fn read(job: &[u8]) -> Result<Job, Malformed>
    ensures { ReadSaid job.now result }
{
    let (curve, rest) = field(job, Tag::Curve);
    let curve = curve.ok_or(Malformed)?;
    let (bounds, rest) = field(rest, Tag::Bounds);
    let (start, rest) = field(rest, Tag::Start);
    let (epsilon, rest) = field(rest, Tag::Epsilon);
    let (budget, rest) = field(rest, Tag::Budget);
    let (limit, rest) = field(rest, Tag::Limit);
    if !rest.is_empty() {
        return Err(Malformed);
    }
    Ok(Job {
        curve: u32::from(wire::byte(curve, 0)),
        options: options(bounds, start, epsilon, budget, limit),
    })
}

// ---- the search of a job

// A start at the curve's cost and slope at 0.
fn over_curve(c: Curve, o: Options) -> Result<(Curve, Turn), refusals::Refusal>
    ensures { by_number result ≡ over_curve c o }
{
    let t = hagerzhang::start(o, c.value(0.0), c.slope(0.0))?;
    Ok((c, t))
}

// Any number that is not finite (2) comes before the curve's number and the ranges (3), and these before epsilon_k and
// L (4).
fn begun_by(j: Job) -> Result<(Curve, Turn), refusals::Refusal>
    ensures { by_number result ≡ begun_by (value j) }
{
    if !hagerzhang_parameters::options_finite(j.options) {
        return Err(refusals::Refusal::SuppliedNotFinite);
    }
    let c = curves::numbered(j.curve)?;
    over_curve(c, j.options)
}

// The curve and the search of a job, which has asked its first step, for any bytes; or why there is none. They stay
// two: the curve is what answers, and any other may answer the same search.
pub fn begin(job: &[u8]) -> Result<(Curve, Turn), Refusal>
    ensures { BeginSaid job.now result }
{
    let j = read(job)?;
    Ok(begun_by(j)?)
}
