// The two units of the product, as types of their own: neither is taken for the other.
#![tactic(auto)]

// A count of table units of 1 / 2^(2k+a+1), with a table guard bits: what a node's value is counted in.
#[repr(C)]
#[derive(Clone, Copy)]
pub struct TableUnits(pub u64);

// A count of ulps of 1 / 2^(2k+1), 2^a table units each: what a reciprocal is counted in.
#[repr(C)]
#[derive(Clone, Copy)]
pub struct Ulps(pub u64);
