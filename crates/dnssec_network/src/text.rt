//! Notes of a zone as a text beside its script, and the reports that are due by them.

mod fault;
mod line;
mod questions;
mod reading;
mod reports;
mod scripts;
mod session;

pub use fault::{DueFault, LineFault, NotesFault};
pub use line::{either_named, kind_name, read_before, read_fact};
pub use questions::{answer_due, answer_lines, answer_questions, read_question};
pub use reading::{read_notes, without_end};
pub use reports::due_lines;
pub use scripts::{answer_scripts, cut};
pub use session::{SessionNotes, notes_outlast_calls};
