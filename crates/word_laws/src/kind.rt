//! The kinds of proposals.

/// What a proposal is.
#[derive(Clone, Copy, Debug, PartialEq, Eq)]
pub enum Kind {
    Join,
    Leave,
    Fail,
    Expel,
    State,
    Message,
    Attributes,
    Reflect,
}
