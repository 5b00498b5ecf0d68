//! What accumulators refuse, with the numbers.

use thiserror::Error;

/// An update that would pass the capacity: so many rows are held, and so many were offered.
#[derive(Clone, Copy, PartialEq, Eq, Debug, Error)]
#[error("{held} rows held, {offered} offered")]
pub struct Full {
    pub held: usize,
    pub offered: usize,
}

/// A slice too short for a state of so many numbers.
#[derive(Clone, Copy, PartialEq, Eq, Debug, Error)]
#[error("{needed} numbers needed")]
pub struct Short {
    pub needed: usize,
}
