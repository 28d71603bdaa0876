// A live table (document 02, T-09) by value: opened from load's tables, then changed by a link at a time.
#![tactic(auto)]

mod calls;
mod changed;
mod given;
mod whole;

pub use whole::{Answer, Live};
