// What the definitions of `rules` come to: 01's settings, computed, and the promises of meaning as theorems.
// No code: whoever believes `rules` and this crate need read no proof.
#![tactic(auto)]
