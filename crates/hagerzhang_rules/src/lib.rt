// The words of Hager-Zhang's rules: points, brackets, parameters, and what an answer comes to. No function stands here:
// specs/ is 01's text, proofs/ has the theorems about that text alone. hagerzhang_parameters has the tests of a start,
// and hagerzhang_decisions decides each rule.

#![tactic(auto)]

// 01: "EPS = 2^-52". S2 and S3 go by it, and it is the default of min.
pub const EPS: f64 = 2.220446049250313e-16;

// Step, cost and slope.
#[derive(Clone, Copy)]
pub struct Point {
    pub x: f64,
    pub f: f64,
    pub g: f64,
}

#[derive(Clone, Copy)]
pub struct Bracket {
    pub a: Point,
    pub b: Point,
}

#[derive(Clone, Copy)]
pub struct Params {
    pub delta: f64,
    pub sigma: f64,
    pub epsilon: f64,
    pub theta: f64,
    pub gamma: f64,
    // checked and stored; no rule reads it
    pub eta: f64,
    // the start step c
    pub start: f64,
}

#[derive(Clone, Copy)]
pub struct Bounds {
    pub min: f64,
    pub max: f64,
}

// The way of starting.
#[derive(Clone, Copy)]
pub enum Way {
    // 01: three answers, at min, max and the start step
    Bounded(Bounds),
    // 02, request 3: the start step grows until it brackets, so many times at most. There are no bounds
    Growing(u32),
}

#[derive(Clone, Copy)]
pub struct Options {
    pub params: Params,
    pub way: Way,
    // how many answers one U3 run may have
    pub budget: u32,
    // how many iterations may be finished
    pub limit: u32,
}

// What does not change in a search.
#[derive(Clone, Copy)]
pub struct Setup {
    pub options: Options,
    // cost and slope at step 0
    pub f0: f64,
    pub s0: f64,
    // L = f0 + epsilon_k
    pub level: f64,
}

// What an answer comes to: the updated bracket, or U3 goes on with its ends.
#[derive(Clone, Copy)]
pub enum Came {
    To(Bracket),
    On(Point, f64),
}
