// Whether a state is well formed (document 01: kept). The tables are judged where they stand, without a copy.
ghost use Rattle.std.specs.Prelude.{◌≡◌};
ghost use Rattle.spec_machine.specs.WellFormed.{well_formed};
ghost use Rattle.survey.specs.View.{of};

use super::whole::Survey;

impl Survey {
    pub fn well_formed(self) -> bool
        ensures { result ≡ well_formed (of self) }
    {
        value_kept::kept(
            self.table.units,
            self.table.links,
            self.clock,
            &self.table.ends,
            &self.components.color,
            &self.tree.parent,
            &self.tree.dist,
            &self.tour.next,
            &self.tour.pred,
            &self.ranking.jump,
            &self.ranking.sum,
            &self.order.forward,
            &self.order.nd,
            &self.order.pre,
            &self.range.low,
            &self.range.high,
            &self.range.little,
            &self.range.big,
            &self.global.low,
            &self.global.high,
            &self.aux.parents,
            &self.aux.links,
            &self.aux.color,
            &self.labels.class,
            &self.labels.label,
            &self.table.levels,
            self.plan.given,
            &self.plan.parent,
        )
    }
}
