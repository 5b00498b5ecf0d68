//! What a frame is made of: its bounds, the order of its rows, and why two bounds may make none
//! (docs/RULES.md, sections 5.1, 5.2 and 5.5).

#![tactic(auto)]

pub mod bound;
pub mod bounds;
pub mod peer_bound;
pub mod reason;
pub mod sort;
