//! The fault of a write.
use thiserror::Error;

/// The writer failed.
#[derive(Clone, Copy, Debug, PartialEq, Eq, Error)]
#[error("the writer failed")]
pub struct WriteFault;
