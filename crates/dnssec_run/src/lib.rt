//! Recorded runs of a key set: lists of calls, what each call answered, and what was then
//! published.
//!
//! `dnssec_record` re-exports what its callers name, and `dnssec_judge` uses the rest.
#![tactic(auto)]

mod adds;
mod between;
mod caches;
mod call;
mod in_order;
mod lists;
mod many;
mod moments;
mod plain;
mod record;
mod running;
mod runs;
mod sets;
mod steps;
mod walk_order;

pub use between::{changes_after, entry_at, keys_at};
pub use caches::{ByKind, SetKind, retires};
pub use call::Call;
pub use in_order::keys_in_order;
pub use lists::{ByList, Change, Shown, is_other};
pub use moments::Moments;
pub use plain::{each_chain_is_one, starts_suffice, whole_runs_stay_safe};
pub use record::{Entry, Mark, Outcome, Published, PublishedKey, Reply, Run};
pub use running::{LastStep, Origins, Recorder, Steps};
pub use runs::run;
