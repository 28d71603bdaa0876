// The clock of a survey as code: ceilings and countdown, whether a stage makes a round more, the tick, and the kept
// test of table and clock.
#![tactic(auto)]

mod ceilings;
mod kept;
mod tick;

pub use ceilings::countdown;
pub use kept::front_ok;
pub use tick::{goes_on, is_last, ticked};
