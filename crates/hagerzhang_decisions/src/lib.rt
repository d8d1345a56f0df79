// Hager-Zhang's rules, each decided on points and floats: the rules that move the bracket, those of a start that grows,
// best and verdict. The types and the rules' text are hagerzhang_rules'; the search over them is hagerzhang.

#![tactic(auto)]

pub mod bracketing; // U0 to U3, the secant, S2 to S4, L2
pub mod growing; // 02, request 3: a trial of a start that grows
pub mod verdicts; // best and verdict
