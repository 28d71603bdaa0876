// A state in the words that a caller lends: where each table lies, its groups taken out and laid down, and the kept
// test.
#![tactic(auto)]

mod judged;
mod lay;
mod layout;
mod take;

pub use judged::kept;
pub use lay::{
    lay_aux, lay_clock, lay_components, lay_global, lay_labels, lay_order, lay_plan, lay_range,
    lay_ranking, lay_table, lay_tour, lay_tree,
};
pub use layout::STATE_WORDS;
pub use take::{
    aux_at, clock_at, components_at, global_at, labels_at, levels_at, order_at, plan_at, range_at,
    ranking_at, table_at, tour_at, tree_at,
};
