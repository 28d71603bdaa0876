// What a finished survey says of links and units.

#![tactic(auto)]

mod flags;
mod links;
mod units;

pub use flags::count_flags;
pub use links::{lone, lones};
pub use units::{single, singles};
