//! A session that C has open.
use dnssec_network::SessionNotes;
use dnssec_record::Session;
use dnssec_run::Moments;

/// A session, the line that it answered last, and its notes.
#[derive(Drop)]
pub struct OpenSession {
    pub(crate) session: Session,
    pub(crate) answer: String,
    /// The moments of the session's calls, for its notes: `None` once it forgoes these.
    pub(crate) moments: Option<Moments>,
    pub(crate) notes: SessionNotes,
}
