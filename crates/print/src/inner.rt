// Bytes, numbers and nets; the lines made of them.
pub mod lines;
pub mod put;
