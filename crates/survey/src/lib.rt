// The survey by value: the state and its calls load, round, run and status.
#![tactic(auto)]

mod answer;
mod kept;
mod load;
mod running;
mod status;
mod whole;

pub use answer::Answer;
pub use spec_state::{
    Aux, Clock, Components, Global, Labels, Order, Plan, Range, Ranking, Reply, Table, Tour, Tree,
};
pub use whole::Survey;
