// What both printers and the reader put into bytes: numbers, nets, patterns, and the lines of a matrix.
// Who asks for a text, and whether there is room for it, is the business of `text`.
#![tactic(auto)]

pub mod inner;
