//! A program's input line by line, its output line by line, and the parts of a line.
#![tactic(auto)]

pub mod buffer;
pub mod field;
pub mod number;
pub mod output;
pub mod reader;
