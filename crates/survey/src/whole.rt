// The state of a survey by value: document 01's struct and its constructor; its limits are those of its clock.
ghost use Rattle.std.specs.Prelude.{◌≡◌};
ghost use Rattle.spec_machine.specs.Load.{begun};
ghost use Rattle.survey.specs.View.{of};

use spec_state::{
    Aux, Clock, Components, Global, Labels, Order, Plan, Range, Ranking, Table, Tour, Tree,
};

#[derive(Clone, Copy)]
pub struct Survey {
    pub table: Table,
    pub clock: Clock,
    pub components: Components,
    pub plan: Plan,
    pub tree: Tree,
    pub tour: Tour,
    pub ranking: Ranking,
    pub order: Order,
    pub range: Range,
    pub global: Global,
    pub aux: Aux,
    pub labels: Labels,
}

impl Survey {
    // The state before any round: names and distances absent, all else 0.
    pub fn begun(table: Table) -> Survey
        ensures { of result ≡ begun table }
    {
        let clock = load_begin::clock();
        let components = load_begin::components();
        let plan = load_begin::unplanned();
        let tree = load_begin::tree();
        let tour = load_begin::tour();
        let ranking = load_begin::ranking();
        let order = load_begin::order();
        let range = load_begin::range();
        let global = load_begin::global();
        let aux = load_begin::aux();
        let labels = load_begin::labels();
        Survey {
            table,
            clock,
            components,
            plan,
            tree,
            tour,
            ranking,
            order,
            range,
            global,
            aux,
            labels,
        }
    }
}
