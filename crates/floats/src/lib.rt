// Laws of f64, for proofs to cite: no code stands here. The vocabulary is specs/Arithmetic.antt and Numerals.antt. The
// laws are proofs/Order.antt (the order of floats), Growth.antt (sums and products that cannot shrink) and Same.antt
// (equal as numbers, equal as data), and Shrinks.antt (a finite number times one below 1 is finite); Tests, Signed,
// Compare and Rounding lead to them. Two more are for every crate's
// proofs: Branches.antt (the tests that led to a return, followed by one search) and Determined.antt (a contract that
// tells everything determines).

#![tactic(auto)]
