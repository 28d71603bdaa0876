// The rounds of each of the stages 1 to 6 on the words of a state: its tables are taken out, changed, and laid down
// again.
ghost use Rattle.std.specs.Prelude.{◌≡◌, ◌≤◌};
ghost use Rattle.spec_machine.specs.StageSteps.{Moved};
ghost use Rattle.words_layout.specs.Layout.{state_of};

use spec_state::{Components, Ranking, Tour, Tree};
use words_layout::STATE_WORDS;

// The rounds of one of the stages 3 to 6, which the clock shows.
pub(crate) fn rounds(stage: u16, words: &mut [u16; STATE_WORDS], budget: u16) -> u16
    requires { ((state_of words.old).clock.stage ≡ stage) × ((3 ≤ stage) × (stage ≤ 6)) }
    ensures { Moved budget (state_of words.old) result (state_of words.new) }
{
    match stage {
        3 => tour_stage(words, budget),
        4 => ranking_stage(words, budget),
        5 => marks_stage(words, budget),
        _ => places_stage(words, budget),
    }
}

// Stage 1.
pub(crate) fn components_stage(words: &mut [u16; STATE_WORDS], budget: u16) -> u16
    requires { (state_of words.old).clock.stage ≡ 1 }
    ensures { Moved budget (state_of words.old) result (state_of words.new) }
{
    let table = words_layout::table_at(words);
    let Components { color } = words_layout::components_at(words);
    let r = stage01_components::run(
        table.units,
        table.links,
        budget,
        &table.ends,
        words_layout::clock_at(words),
        color,
    );
    words_layout::lay_clock(r.clock, words);
    words_layout::lay_components(&r.color, words);
    r.made
}

// Stage 2.
pub(crate) fn tree_stage(words: &mut [u16; STATE_WORDS], budget: u16) -> u16
    requires { (state_of words.old).clock.stage ≡ 2 }
    ensures { Moved budget (state_of words.old) result (state_of words.new) }
{
    let table = words_layout::table_at(words);
    let levels = words_layout::levels_at(words);
    let components = words_layout::components_at(words);
    let plan = words_layout::plan_at(words);
    let Tree { parent, dist } = words_layout::tree_at(words);
    let r = stage02_tree::run(
        table.units,
        table.links,
        budget,
        plan.given,
        &plan.parent,
        &table.ends,
        &levels,
        &components.color,
        words_layout::clock_at(words),
        parent,
        dist,
    );
    words_layout::lay_clock(r.clock, words);
    words_layout::lay_tree(&r.parent, &r.dist, words);
    r.made
}

// Stage 3.
fn tour_stage(words: &mut [u16; STATE_WORDS], budget: u16) -> u16
    requires { (state_of words.old).clock.stage ≡ 3 }
    ensures { Moved budget (state_of words.old) result (state_of words.new) }
{
    let table = words_layout::table_at(words);
    let tree = words_layout::tree_at(words);
    let Tour { next, pred } = words_layout::tour_at(words);
    let Ranking { jump, sum } = words_layout::ranking_at(words);
    let r = stage03_tour::run(
        table.units,
        budget,
        &tree.parent,
        words_layout::clock_at(words),
        next,
        pred,
        jump,
        sum,
    );
    words_layout::lay_clock(r.clock, words);
    words_layout::lay_tour(&r.next, &r.pred, words);
    words_layout::lay_ranking(&r.jump, &r.sum, words);
    r.made
}

// Stage 4.
fn ranking_stage(words: &mut [u16; STATE_WORDS], budget: u16) -> u16
    requires { (state_of words.old).clock.stage ≡ 4 }
    ensures { Moved budget (state_of words.old) result (state_of words.new) }
{
    let table = words_layout::table_at(words);
    let Ranking { jump, sum } = words_layout::ranking_at(words);
    let r = stage04_ranking::run(
        table.units,
        budget,
        words_layout::clock_at(words),
        jump,
        sum,
    );
    words_layout::lay_clock(r.clock, words);
    words_layout::lay_ranking(&r.jump, &r.sum, words);
    r.made
}

// Stage 5.
fn marks_stage(words: &mut [u16; STATE_WORDS], budget: u16) -> u16
    requires { (state_of words.old).clock.stage ≡ 5 }
    ensures { Moved budget (state_of words.old) result (state_of words.new) }
{
    let table = words_layout::table_at(words);
    let components = words_layout::components_at(words);
    let tree = words_layout::tree_at(words);
    let tour = words_layout::tour_at(words);
    let order = words_layout::order_at(words);
    let Ranking { jump, sum } = words_layout::ranking_at(words);
    let r = stage05_marks::run(
        table.units,
        budget,
        &components.color,
        &tree.parent,
        &tour.pred,
        words_layout::clock_at(words),
        order.forward,
        order.nd,
        jump,
        sum,
    );
    words_layout::lay_clock(r.clock, words);
    words_layout::lay_order(&r.forward, &r.nd, &order.pre, words);
    words_layout::lay_ranking(&r.jump, &r.sum, words);
    r.made
}

// Stage 6.
fn places_stage(words: &mut [u16; STATE_WORDS], budget: u16) -> u16
    requires { (state_of words.old).clock.stage ≡ 6 }
    ensures { Moved budget (state_of words.old) result (state_of words.new) }
{
    let table = words_layout::table_at(words);
    let components = words_layout::components_at(words);
    let tree = words_layout::tree_at(words);
    let order = words_layout::order_at(words);
    let Ranking { jump, sum } = words_layout::ranking_at(words);
    let r = stage06_places::run(
        table.units,
        budget,
        &components.color,
        &tree.parent,
        words_layout::clock_at(words),
        order.pre,
        jump,
        sum,
    );
    words_layout::lay_clock(r.clock, words);
    words_layout::lay_order(&order.forward, &order.nd, &r.pre, words);
    words_layout::lay_ranking(&r.jump, &r.sum, words);
    r.made
}
