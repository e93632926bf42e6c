//! The words of a script.

/// A word with which a line begins.
#[derive(Clone, Copy)]
pub(crate) enum Word {
    AddKsk,
    AddZsk,
    AddCsk,
    AddPublic,
    SetDecoupled,
    SetPresent,
    SetSigner,
    SetAtParent,
    SetStale,
    SetVisible,
    SetDsVisible,
    SetRrsigVisible,
    Delete,
    Start,
    Report1,
    Wait1,
    Report2,
    Wait2,
    Done,
    Abort,
}
