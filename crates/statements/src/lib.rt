// What the library promises, as theorems. Each speaks of the definitions that the contracts of the calls cite.
// The pages of proofs/ are to be read in this order. proofs/Lib.antt has them as `pub mod`, and their support as `mod`.
// Refusals: what is turned back, by which number and place.
// Construction: nodes, image and reciprocal are those of Das Sarma and Matula, Algorithms 1 and 2.
// Bound: a reciprocal that is given is R, which is less than one ulp off.
// Neighbours: how far the reciprocals of neighbours lie apart. These four speak of every format.
// Printed: the printed table, of plain words with two table guard bits. Guards says what guard bits do.
// Usual, Plain and Full say in numbers what they come to with two table guard bits and three input guard bits.
// Examples has the statement that covers the set examples, which stand in specs/Examples.antt.
#![tactic(auto)]
