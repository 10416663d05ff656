// Constant lists: no code, one law that carries a rule from a whole list to each of its entries (proofs/List.antt).
#![tactic(auto)]
