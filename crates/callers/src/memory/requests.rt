//! Whether a request for memory may be refused, as a call finds.

#[derive(Clone, Copy, PartialEq)]
pub(crate) enum Memory {
    /// One may be refused, at some time.
    MayFail,
    /// One was refused, and the call that made it answered so.
    Failed,
}

impl Memory {
    /// A request has failed. Whether that may be: for the first time.
    pub(crate) fn fails(&mut self) -> bool {
        let may_fail = *self == Memory::MayFail;
        *self = Memory::Failed;
        may_fail
    }
}
