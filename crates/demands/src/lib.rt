// The theorems over all the crates below: no code stands here. specs/ states them: Demand1, Demand2, Demand3,
// Backtracking and Determined, over Runs; StoredJobs, StartBracketing and ZeroSlope, of 02's requests 2, 3 and 4; and
// Reached, the searches that reach their bounds. proofs/ shows each in the file of its name; the other files lead
// there.

#![tactic(auto)]
