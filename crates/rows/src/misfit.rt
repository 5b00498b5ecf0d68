//! Columns of different lengths.

use thiserror::Error;

/// The first column that differs in length from the arguments.
#[derive(Clone, Copy, PartialEq, Eq, Debug, Error)]
pub enum Misfit {
    #[error("presence differs in length from the arguments")]
    Presence,
    #[error("the mask differs in length from the arguments")]
    Mask,
}
