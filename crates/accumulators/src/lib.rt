//! Accumulators: running figures over the optional values of the rows that they were given
//! (docs/RULES.md, section 4).

#![tactic(auto)]

pub mod accumulator;
pub mod aggregate;
pub mod capacity;
pub mod count;
pub mod extreme;
pub mod float_sum;
mod held;
pub mod refusals;
mod ring;
pub mod sliding_extreme;
mod state;
pub mod sum;
