// Rule sets: net codes, ascending, with a count; and the insertion that every set of the product is made by.
// Nothing here knows rows or matrices.
#![tactic(auto)]

#[repr(C)]
#[derive(Clone, Copy, PartialEq, Eq)]
pub struct Rules {
    pub items: [u16; rules::RULES_MAX],
    pub count: usize,
}

// What two sets have together, which may be more than one has room for.
#[derive(Clone, Copy)]
pub struct Wide {
    pub items: [u16; 2 * rules::RULES_MAX],
    pub count: usize,
}

pub mod inner;
