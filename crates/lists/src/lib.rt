// Definitions and laws on lists, tests and arrays that grow, cited by the contracts and proofs of every other crate.
// No code, and no word of the product.
#![tactic(auto)]
