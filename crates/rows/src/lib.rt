//! The rows of a partition, lent as columns (docs/RULES.md, section 1).

#![tactic(auto)]

pub mod arguments;
pub mod gather;
pub mod kept;
pub mod misfit;
