// The fields of a case file: what the body of each says.

#![tactic(auto)]

ghost use Rattle.std.specs.Prelude.{◌≡◌, length, drop};
ghost use Rattle.bodies.specs.Bodies.{float_at, quad_at, params_of, bounds_of, start_with, hager_zhang_of};
ghost use Rattle.bodies.specs.Bodies.{way_of, limit_of, whole_of, condition_of, backtracking_of, answer_of, floats_of};

use conditions::Condition;
use hagerzhang_rules::{Bounds, Params, Way};

// A start: its options, and cost and slope at step 0. It is what the bytes say; a search's `Setup` is what its start
// has accepted. The starts take the three one by one, as whoever measures has them.
#[derive(Clone, Copy)]
pub struct Start<O> {
    pub options: O,
    pub f0: f64,
    pub s0: f64,
}

pub type HagerZhangStart = Start<hagerzhang_rules::Options>;

pub type BacktrackingStart = Start<backtracking::Options>;

// An answer.
#[derive(Clone, Copy)]
pub struct Reply {
    pub cost: f64,
    pub slope: f64,
}

// The float from a place on. The places are those of docs/FORMATS.md, so they stand as numbers wherever a body is read.
fn float(body: &[u8], at: usize) -> f64
    ensures { result ≡ float_at body.now at }
{
    wire::float(wire::from(body, at))
}

fn quad(body: &[u8], at: usize) -> u32
    ensures { result ≡ quad_at body.now at }
{
    wire::quad(wire::from(body, at))
}

#[tactic(auto, unfolding(crate::specs::Bodies::params_of))]
fn params(body: &[u8]) -> Params
    ensures { result ≡ params_of body.now }
{
    Params {
        delta: float(body, 0),
        sigma: float(body, 8),
        epsilon: float(body, 16),
        theta: float(body, 24),
        gamma: float(body, 32),
        eta: float(body, 40),
        start: float(body, 64),
    }
}

fn bounds(body: &[u8]) -> Bounds
    ensures { result ≡ bounds_of body.now }
{
    Bounds {
        min: float(body, 48),
        max: float(body, 56),
    }
}

// What both starts have alike, with a way and an N.
#[tactic(auto, unfolding(crate::specs::Bodies::start_with))]
fn start_with(body: &[u8], way: Way, limit: u32) -> HagerZhangStart
    ensures { result ≡ start_with body.now way limit }
{
    Start {
        options: hagerzhang_rules::Options {
            params: params(body),
            way,
            budget: quad(body, 88),
            limit,
        },
        f0: float(body, 72),
        s0: float(body, 80),
    }
}

pub fn hager_zhang(body: &[u8]) -> HagerZhangStart
    ensures { result ≡ hager_zhang_of body.now }
{
    start_with(body, Way::Bounded(bounds(body)), quad(body, 92))
}

// Where it is growing, min and max are not read. `way_of` gives every byte a way, so this is no TryFrom.
#[tactic(auto, unfolding(crate::specs::Bodies::way_of))]
fn way(body: &[u8]) -> Way
    ensures { result ≡ way_of body.now }
{
    if wire::byte(body, 96) == 0 {
        Way::Bounded(bounds(body))
    } else {
        Way::Growing(quad(body, 97))
    }
}

// N; or 0, which no search may have, where R is not 0. No search has an R: any other is refused (3), as N is, and in
// its place. `limit_of` says the 0, so this is no Option.
#[tactic(auto, unfolding(crate::specs::Bodies::limit_of))]
fn limit(body: &[u8]) -> u32
    ensures { result ≡ limit_of body.now }
{
    match quad(body, 101) {
        0 => quad(body, 92),
        _ => 0,
    }
}

pub fn whole(body: &[u8]) -> HagerZhangStart
    ensures { result ≡ whole_of body.now }
{
    start_with(body, way(body), limit(body))
}

// Another byte than 1 to 4 is malformed, and never comes here. `condition_of` gives every byte a condition, so this is
// no TryFrom.
#[tactic(auto, unfolding(crate::specs::Bodies::condition_of))]
fn condition(kind: u8, c1: f64, c2: f64) -> Condition
    ensures { result ≡ condition_of kind c1 c2 }
{
    match kind {
        1 => Condition::Armijo { c: c1 },
        2 => Condition::Goldstein { c: c1 },
        3 => Condition::Wolfe { c1, c2 },
        _ => Condition::StrongWolfe { c1, c2 },
    }
}

#[tactic(auto, unfolding(crate::specs::Bodies::backtracking_of))]
pub fn backtracking(body: &[u8]) -> BacktrackingStart
    ensures { result ≡ backtracking_of body.now }
{
    let kind = wire::byte(body, 0);
    Start {
        options: backtracking::Options {
            condition: condition(kind, float(body, 1), float(body, 9)),
            rho: float(body, 17),
            alpha: float(body, 25),
            limit: quad(body, 49),
        },
        f0: float(body, 33),
        s0: float(body, 41),
    }
}

pub fn answer(body: &[u8]) -> Reply
    ensures { result ≡ answer_of body.now }
{
    Reply {
        cost: float(body, 0),
        slope: float(body, 8),
    }
}

// Fills v with the floats of the body, from a place on.
pub fn floats(body: &[u8], at: usize, v: &mut [f64])
    ensures { v.new ≡ floats_of (length v.old) (drop at body.now) }
{
    let mut rest = wire::from(body, at);
    for x in v.iter_mut() {
        *x = wire::float(rest);
        rest = wire::from(rest, 8);
    }
}
