//! Where the last batch is.

/// Where the last batch is.
#[derive(Clone, Copy, Debug, PartialEq, Eq)]
pub(crate) enum Turn {
    /// It ended, or there was none.
    Idle,
    /// It is out: it was taken, and what comes of it is not known.
    Out,
    /// It is to be sent again.
    Again,
}
