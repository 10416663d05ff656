// Tests and what they say: no code, a few laws of Bool that the proofs of several crates cite (proofs/Bools.antt), and
// the lowest number that passes a test (specs/Lowest.antt, its laws in proofs/Lowest.antt).
#![tactic(auto)]
