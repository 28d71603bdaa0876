// Rounds and runs. A run goes from stage to stage: the tables that a stage changes are taken out, its rounds are made
// on them, and they are put back; the rest of the state stays where it is.
ghost use Rattle.std.specs.Prelude.{◌≡◌, true, not, [], ◌∷◌, eqb};
ghost use Rattle.table.specs.Refusals.{first_of};
ghost use Rattle.spec_machine.specs.WellFormed.{well_formed};
ghost use Rattle.spec_machine.specs.Run.{ran};
ghost use Rattle.spec_machine.specs.Calls.{round_answer, run_answer};
ghost use Rattle.survey.specs.View.{of, answer_of};

use super::answer::Answer;
use super::whole::Survey;
use spec_state::{
    Aux, Clock, Components, Global, Labels, Order, Range, Ranking, Reply, Tour, Tree,
};

impl Survey {
    // One round: 10, 11.
    pub fn round(self) -> Answer
        ensures { answer_of result ≡ round_answer (of self) }
    {
        let refused = refusal(self.well_formed(), self.clock.stage);
        if refused != 0 {
            return Answer {
                survey: self,
                reply: Reply::Refused(refused),
            };
        }
        let r = self.go(1);
        let after = r.survey;
        Answer {
            survey: after,
            reply: Reply::Done,
        }
    }

    // At most `budget` rounds: 10, 11.
    pub fn run(self, budget: u16) -> Answer
        ensures { answer_of result ≡ run_answer budget (of self) }
    {
        // The tables are lent where they stand: `well_formed` would copy the state.
        let well = value_kept::kept(
            self.table.units,
            self.table.links,
            self.clock,
            &self.table.ends,
            &self.components.color,
            &self.tree.parent,
            &self.tree.dist,
            &self.tour.next,
            &self.tour.pred,
            &self.ranking.jump,
            &self.ranking.sum,
            &self.order.forward,
            &self.order.nd,
            &self.order.pre,
            &self.range.low,
            &self.range.high,
            &self.range.little,
            &self.range.big,
            &self.global.low,
            &self.global.high,
            &self.aux.parents,
            &self.aux.links,
            &self.aux.color,
            &self.labels.class,
            &self.labels.label,
            &self.table.levels,
            self.plan.given,
            &self.plan.parent,
        );
        let refused = refusal(well, self.clock.stage);
        if refused != 0 {
            return Answer {
                survey: self,
                reply: Reply::Refused(refused),
            };
        }
        let r = self.go(budget);
        let after = r.survey;
        Answer {
            survey: after,
            reply: Reply::Made(r.made),
        }
    }

    // At most `budget` rounds from a well-formed state.
    fn go(mut self, budget: u16) -> Gone
        requires { well_formed (of self) ≡ true }
        ensures { ran budget 0 (of self) ≡ (of result.survey, result.made) }
    {
        let mut made: u16 = 0;
        while made < budget {
            let stage = self.clock.stage;
            let clock = self.clock;
            let units = self.table.units;
            let links = self.table.links;
            let left = budget - made;
            match stage {
                1 => {
                    let color = self.components.color;
                    let r = stage01_components::run(
                        units,
                        links,
                        left,
                        &self.table.ends,
                        clock,
                        color,
                    );
                    let after = r.clock;
                    let new_color = r.color;
                    let new = Components { color: new_color };
                    self.clock = after;
                    self.components = new;
                    made += r.made;
                    continue;
                }
                2 => {
                    let parent = self.tree.parent;
                    let dist = self.tree.dist;
                    let given = self.plan.given;
                    let r = stage02_tree::run(
                        units,
                        links,
                        left,
                        given,
                        &self.plan.parent,
                        &self.table.ends,
                        &self.table.levels,
                        &self.components.color,
                        clock,
                        parent,
                        dist,
                    );
                    let after = r.clock;
                    let new_parent = r.parent;
                    let new_dist = r.dist;
                    let new = Tree {
                        parent: new_parent,
                        dist: new_dist,
                    };
                    self.clock = after;
                    self.tree = new;
                    made += r.made;
                    continue;
                }
                3 => {
                    let next = self.tour.next;
                    let pred = self.tour.pred;
                    let jump = self.ranking.jump;
                    let sum = self.ranking.sum;
                    let r = stage03_tour::run(
                        units,
                        left,
                        &self.tree.parent,
                        clock,
                        next,
                        pred,
                        jump,
                        sum,
                    );
                    let after = r.clock;
                    let new_next = r.next;
                    let new_pred = r.pred;
                    let new_jump = r.jump;
                    let new_sum = r.sum;
                    let new = Tour {
                        next: new_next,
                        pred: new_pred,
                    };
                    let new_ranking = Ranking {
                        jump: new_jump,
                        sum: new_sum,
                    };
                    self.clock = after;
                    self.tour = new;
                    self.ranking = new_ranking;
                    made += r.made;
                    continue;
                }
                4 => {
                    let jump = self.ranking.jump;
                    let sum = self.ranking.sum;
                    let r = stage04_ranking::run(units, left, clock, jump, sum);
                    let after = r.clock;
                    let new_jump = r.jump;
                    let new_sum = r.sum;
                    let new_ranking = Ranking {
                        jump: new_jump,
                        sum: new_sum,
                    };
                    self.clock = after;
                    self.ranking = new_ranking;
                    made += r.made;
                    continue;
                }
                5 => {
                    let forward = self.order.forward;
                    let nd = self.order.nd;
                    let pre = self.order.pre;
                    let jump = self.ranking.jump;
                    let sum = self.ranking.sum;
                    let r = stage05_marks::run(
                        units,
                        left,
                        &self.components.color,
                        &self.tree.parent,
                        &self.tour.pred,
                        clock,
                        forward,
                        nd,
                        jump,
                        sum,
                    );
                    let after = r.clock;
                    let new_forward = r.forward;
                    let new_nd = r.nd;
                    let new_jump = r.jump;
                    let new_sum = r.sum;
                    let new = Order {
                        forward: new_forward,
                        nd: new_nd,
                        pre,
                    };
                    let new_ranking = Ranking {
                        jump: new_jump,
                        sum: new_sum,
                    };
                    self.clock = after;
                    self.order = new;
                    self.ranking = new_ranking;
                    made += r.made;
                    continue;
                }
                6 => {
                    let forward = self.order.forward;
                    let nd = self.order.nd;
                    let pre = self.order.pre;
                    let jump = self.ranking.jump;
                    let sum = self.ranking.sum;
                    let r = stage06_places::run(
                        units,
                        left,
                        &self.components.color,
                        &self.tree.parent,
                        clock,
                        pre,
                        jump,
                        sum,
                    );
                    let after = r.clock;
                    let new_pre = r.pre;
                    let new_jump = r.jump;
                    let new_sum = r.sum;
                    let new = Order {
                        forward,
                        nd,
                        pre: new_pre,
                    };
                    let new_ranking = Ranking {
                        jump: new_jump,
                        sum: new_sum,
                    };
                    self.clock = after;
                    self.order = new;
                    self.ranking = new_ranking;
                    made += r.made;
                    continue;
                }
                7 => {
                    let low = self.range.low;
                    let high = self.range.high;
                    let little = self.range.little;
                    let big = self.range.big;
                    let least = self.global.low;
                    let greatest = self.global.high;
                    let r = stage07_range::run(
                        units,
                        links,
                        left,
                        &self.table.ends,
                        &self.tree.parent,
                        &self.order.nd,
                        &self.order.pre,
                        clock,
                        low,
                        high,
                        little,
                        big,
                        least,
                        greatest,
                    );
                    let after = r.clock;
                    let new_low = r.low;
                    let new_high = r.high;
                    let new_little = r.little;
                    let new_big = r.big;
                    let new_least = r.least;
                    let new_greatest = r.greatest;
                    let new = Range {
                        low: new_low,
                        high: new_high,
                        little: new_little,
                        big: new_big,
                    };
                    let new_global = Global {
                        low: new_least,
                        high: new_greatest,
                    };
                    self.clock = after;
                    self.range = new;
                    self.global = new_global;
                    made += r.made;
                    continue;
                }
                8 => {
                    let parents = self.aux.parents;
                    let across = self.aux.links;
                    let color = self.aux.color;
                    let r = stage08_joins::run(
                        units,
                        links,
                        left,
                        &self.table.ends,
                        &self.tree.parent,
                        &self.order.nd,
                        &self.order.pre,
                        &self.range.low,
                        &self.range.high,
                        clock,
                        parents,
                        across,
                    );
                    let after = r.clock;
                    let new_parents = r.parents;
                    let new_links = r.links;
                    let new = Aux {
                        parents: new_parents,
                        links: new_links,
                        color,
                    };
                    self.clock = after;
                    self.aux = new;
                    made += r.made;
                    continue;
                }
                9 => {
                    let parents = self.aux.parents;
                    let across = self.aux.links;
                    let color = self.aux.color;
                    let r = stage09_classes::run(
                        units,
                        links,
                        left,
                        &self.table.ends,
                        &self.tree.parent,
                        &self.aux.links,
                        &self.aux.parents,
                        clock,
                        color,
                    );
                    let after = r.clock;
                    let new_color = r.color;
                    let new = Aux {
                        parents,
                        links: across,
                        color: new_color,
                    };
                    self.clock = after;
                    self.aux = new;
                    made += r.made;
                    continue;
                }
                10 => {
                    let class = self.labels.class;
                    let label = self.labels.label;
                    let r = stage10_labels::run(
                        units,
                        links,
                        left,
                        &self.table.ends,
                        &self.tree.parent,
                        &self.order.pre,
                        &self.aux.color,
                        clock,
                        class,
                        label,
                    );
                    let after = r.clock;
                    let new_class = r.class;
                    let new_label = r.label;
                    let new = Labels {
                        class: new_class,
                        label: new_label,
                    };
                    self.clock = after;
                    self.labels = new;
                    made += r.made;
                    continue;
                }
                _ => {
                    return Gone { survey: self, made };
                }
            }
        }
        Gone { survey: self, made }
    }
}

// The number of the first cause, given whether the state is well formed and its stage.
fn refusal(well: bool, stage: u16) -> u8
    ensures { result ≡ first_of ((10, not well) ∷ (11, eqb stage 11) ∷ []) }
{
    if !well {
        return table_refusals::NOT_KEPT;
    }
    if stage == Clock::FINISHED {
        table_refusals::AT_END
    } else {
        table_refusals::DONE
    }
}

// The state after a run, and the rounds made.
#[derive(Clone, Copy)]
pub struct Gone {
    pub survey: Survey,
    pub made: u16,
}
