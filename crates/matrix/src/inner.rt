// What dispatch needs of the matrix, and the parts of its operations.
// `Clean m`, and `Tidy r` of a row, are facts and no types: Matrix and Row are C's structs, taken as they come, and neither holds between two writes of an operation, so that a type would be taken apart before each write and proved again after it.
// Where an array of 16 slots is made of a slice, at most 16 items are asked for: a slice's length is no part of its type.
pub mod blank;
pub mod build;
pub mod check;
pub mod codes;
pub mod merge;
pub mod normal;
pub mod numbers;
pub mod outs;
pub mod step;
pub mod tidy;
