//! A policy as a text, and a lint of it: a lifetime that is shorter than its roll takes.

mod fault;
mod lint;
mod reading;
mod wish;
mod writing;

pub use fault::PolicyFault;
pub use lint::{TooShort, too_short};
pub use reading::read_policy;
pub use writing::policy_text;
