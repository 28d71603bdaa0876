// The door for callers in Rattle: every call by value, under the names that C has.
#![tactic(auto)]

mod groups;
mod order;

pub use groups::one_way;
pub use one_way::Numbering;
pub use order::lifting_order;
pub use survey::{Answer, Reply, Survey};
pub use value_calls::{link, read, report as state_report, unit, write};
pub use value_doubtful::{Verdict, doubt as doubtful};
pub use value_handsets::{foreman_line, service_line};
pub use value_lifting::Lifting;
pub use value_live::Live;
pub use value_report::report;
pub use value_ring::{Shown, show as ring};
