//! Recorded runs of a key set: lists of calls, what each call answered and what was then published;
//! the verdict on a record; and scripts, which are lists of calls as text.
#![tactic(auto)]

mod courses;
mod device;
mod fault;
mod script;
mod session;
mod zone;

pub use courses::Listing;
pub use device::{DeviceFault, Sink, Source, Std};
pub use dnssec_judge::{
    Broken, Judge, audit, audit_window, plain_runs_pass, records_have_one_verdict, runs_stay_safe,
};
pub use dnssec_run::{
    ByList, Call, Change, Entry, Mark, Moments, Outcome, Published, PublishedKey, Recorder, Reply,
    Run, each_chain_is_one, run, starts_suffice, whole_runs_stay_safe,
};
pub use dnssec_script::{Fields, all_lines};
pub use dnssec_zone::Part;
pub use fault::{CallFault, ScriptFault};
pub use script::{record_script, run_script};
pub use session::{Attempt, Response, Session, Trial};
pub use zone::action_name;
