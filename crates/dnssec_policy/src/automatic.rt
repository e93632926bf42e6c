//! A zone that rolls by itself: each of its calls adds a key, or is what a policy said.

mod answer;
mod fault;
mod line;
mod text;
mod zone;
mod zone_notes;

pub use answer::answer_next;
pub use fault::NextFault;
pub use line::next_line;
pub use text::answer_text;
pub use zone::{AutomaticZone, is_add};
