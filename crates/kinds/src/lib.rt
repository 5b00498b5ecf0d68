//! Kinds of value: what can be put in order, and what can also be measured (docs/RULES.md, section 3).

#![tactic(auto)]

pub mod float;
pub mod ordered;
pub mod tick;
pub mod whole;
