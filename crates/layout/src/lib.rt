// A table of words, whatever the words are: what its image is, what a buffer holds of it, and the refusals that follow
// from it stand in specs/, their laws in proofs/. The table of a format is one (crate `image`). No code.
#![tactic(auto)]
