//! Frames that go by order values: RANGE by peers for every ordered kind, by distance for measured ones
//! (docs/RULES.md, sections 5.2 and 5.3).

#![tactic(auto)]

pub mod distances;
pub mod peers;
pub mod range;
pub mod reverse;
pub mod units;
pub mod window_frame;
