// The muxes of a tree: the recursion that appends them, what a leaf gives, and which leaves name two nets.
// Trees and tables are well formed here, and have room: `emit` sees to it.
#![tactic(auto)]

pub mod inner;
