// The types that a state and a call's reply are made of: declarations, no functions.
#![tactic(auto)]

mod groups;
mod reply;

pub use groups::{
    Aux, Clock, Components, Global, Labels, Order, Plan, Range, Ranking, Table, Tour, Tree,
};
pub use reply::Reply;
