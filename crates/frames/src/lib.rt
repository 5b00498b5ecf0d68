//! Frames of rows: the interface of the rules that give each row its frame, with its laws, and when a
//! frame is complete (docs/RULES.md, section 5).

#![tactic(auto)]

pub mod constant;
pub mod frame;
pub mod order;
pub mod partition;
pub mod reverse;
pub mod rows;
pub mod rule;
