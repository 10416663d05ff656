// Interpolation between two nodes. What it is stands in specs/ (Das Sarma and Matula, Algorithm 2).
// That R is less than one ulp off, and how far the R of neighbours lie apart, stands in proofs/. There is no code.
#![tactic(auto)]
