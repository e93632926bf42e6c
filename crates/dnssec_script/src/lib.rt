//! The reader of scripts: from the bytes of a script to the calls that its lines make.
#![tactic(auto)]

mod fields;
mod forms;
mod lines;
mod statement;
mod word;

pub use fields::Fields;
pub use lines::{Lines, ReadFault, all_lines, read_zone};
pub use statement::{Start, Statement, read_line};
