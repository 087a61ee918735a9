//! What is found of a record's body.
use thiserror::Error;

/// Why a body does not spell its layout.
#[derive(Clone, Copy, Debug, PartialEq, Eq, Error)]
pub enum BodyReason {
    /// Fewer bytes are left than the field needs.
    #[error("BodyShort")]
    BodyShort,
    /// All fields are spelled, and the bytes after them are neither none nor four.
    #[error("BodyLong")]
    BodyLong,
    /// The bytes of a text are all there, and the last of them is not zero.
    #[error("BadText")]
    BadText,
}

/// The first field without a spelling, counted from 0, and why it has none. Of BodyLong it is the number of fields.
#[derive(Clone, Copy, Debug, PartialEq, Eq, Error)]
#[error("{reason}")]
pub struct BodyFault {
    pub field: u32,
    pub reason: BodyReason,
}

/// What a body has that spells its layout.
#[derive(Clone, Copy, Debug, PartialEq, Eq)]
pub struct Measured {
    /// The texts spelled by a length of 0 alone, those of lists too.
    pub zero_texts: u64,
    pub links: u64,
}
