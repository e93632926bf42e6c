//! What to do next with a zone, by a policy: a call to make, a set to publish or to watch, a key
//! to make, or a moment to wait for. Whatever it says, the calls set nothing by hand, and reports
//! count what the notes ask for: so resolvers find a chain of trust at all times. `text` has a
//! policy as a text, and `automatic` a zone that rolls by itself.
#![tactic(auto)]

mod automatic;
mod by_hand;
mod choose;
mod deletions;
mod in_progress;
mod keys;
mod last_waits;
mod laws;
mod policy;
mod starts;
mod state;
mod text;
mod todo;
mod ttls;
mod unmet;
mod why;

pub use automatic::{AutomaticZone, NextFault, answer_next, answer_text, is_add, next_line};
pub use by_hand::FirstByHand;
pub use choose::next;
pub use last_waits::LastWaits;
pub use laws::{
    answers_are_said, automatic_deletions_follow, automatic_ends_follow,
    automatic_reports_are_by_notes, automatic_runs_are_plain, automatic_runs_are_untouched,
    automatic_runs_grow, automatic_runs_reach_resolvers, automatic_runs_serve_keepers, keys_leave,
    next_goes_on, next_is_accepted, nothing_is_silent, rest_is_as_wanted, rolls_are_in_time,
    rolls_end, said_lines_are_read, starts_are_in_time,
};
pub use policy::{KeyRole, KskMethod, Policy, Scheme, Term, ZskMethod};
pub use state::State;
pub use text::{PolicyFault, TooShort, policy_text, read_policy, too_short};
pub use todo::{Cds, Next};
pub use ttls::HighestTtls;
pub use unmet::stuck;
pub use why::Why;
