// The lines of a tree, and the readers of a matrix: by words, by lines and whole.
pub mod parse;
pub mod reader;
pub mod scan;
pub mod trees;
