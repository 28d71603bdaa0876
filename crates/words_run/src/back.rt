// The rounds of each of the stages 7 to 10 on the words of a state.
ghost use Rattle.std.specs.Prelude.{◌≡◌, ◌≢◌, ◌≤◌};
ghost use Rattle.spec_machine.specs.StageSteps.{Moved};
ghost use Rattle.words_layout.specs.Layout.{state_of};

use spec_state::{Aux, Global, Labels, Range};
use words_layout::STATE_WORDS;

// The rounds of stage 7, 8 or 10, which the clock shows.
pub(crate) fn rounds(stage: u16, words: &mut [u16; STATE_WORDS], budget: u16) -> u16
    requires { ((state_of words.old).clock.stage ≡ stage) × ((7 ≤ stage) × (stage ≤ 10) × (stage ≢ 9)) }
    ensures { Moved budget (state_of words.old) result (state_of words.new) }
{
    match stage {
        7 => range_stage(words, budget),
        8 => joins_stage(words, budget),
        _ => labels_stage(words, budget),
    }
}

// Stage 7.
fn range_stage(words: &mut [u16; STATE_WORDS], budget: u16) -> u16
    requires { (state_of words.old).clock.stage ≡ 7 }
    ensures { Moved budget (state_of words.old) result (state_of words.new) }
{
    let table = words_layout::table_at(words);
    let tree = words_layout::tree_at(words);
    let order = words_layout::order_at(words);
    let Range {
        low,
        high,
        little,
        big,
    } = words_layout::range_at(words);
    let Global {
        low: least,
        high: greatest,
    } = words_layout::global_at(words);
    let r = stage07_range::run(
        table.units,
        table.links,
        budget,
        &table.ends,
        &tree.parent,
        &order.nd,
        &order.pre,
        words_layout::clock_at(words),
        low,
        high,
        little,
        big,
        least,
        greatest,
    );
    words_layout::lay_clock(r.clock, words);
    words_layout::lay_range(&r.low, &r.high, &r.little, &r.big, words);
    words_layout::lay_global(&r.least, &r.greatest, words);
    r.made
}

// Stage 8.
fn joins_stage(words: &mut [u16; STATE_WORDS], budget: u16) -> u16
    requires { (state_of words.old).clock.stage ≡ 8 }
    ensures { Moved budget (state_of words.old) result (state_of words.new) }
{
    let table = words_layout::table_at(words);
    let tree = words_layout::tree_at(words);
    let order = words_layout::order_at(words);
    let range = words_layout::range_at(words);
    let aux = words_layout::aux_at(words);
    let r = stage08_joins::run(
        table.units,
        table.links,
        budget,
        &table.ends,
        &tree.parent,
        &order.nd,
        &order.pre,
        &range.low,
        &range.high,
        words_layout::clock_at(words),
        aux.parents,
        aux.links,
    );
    words_layout::lay_clock(r.clock, words);
    words_layout::lay_aux(&r.parents, &r.links, &aux.color, words);
    r.made
}

// Stage 9.
pub(crate) fn classes_stage(words: &mut [u16; STATE_WORDS], budget: u16) -> u16
    requires { (state_of words.old).clock.stage ≡ 9 }
    ensures { Moved budget (state_of words.old) result (state_of words.new) }
{
    let table = words_layout::table_at(words);
    let tree = words_layout::tree_at(words);
    let Aux {
        parents,
        links,
        color,
    } = words_layout::aux_at(words);
    let r = stage09_classes::run(
        table.units,
        table.links,
        budget,
        &table.ends,
        &tree.parent,
        &links,
        &parents,
        words_layout::clock_at(words),
        color,
    );
    words_layout::lay_clock(r.clock, words);
    words_layout::lay_aux(&parents, &links, &r.color, words);
    r.made
}

// Stage 10.
fn labels_stage(words: &mut [u16; STATE_WORDS], budget: u16) -> u16
    requires { (state_of words.old).clock.stage ≡ 10 }
    ensures { Moved budget (state_of words.old) result (state_of words.new) }
{
    let table = words_layout::table_at(words);
    let tree = words_layout::tree_at(words);
    let order = words_layout::order_at(words);
    let aux = words_layout::aux_at(words);
    let Labels { class, label } = words_layout::labels_at(words);
    let r = stage10_labels::run(
        table.units,
        table.links,
        budget,
        &table.ends,
        &tree.parent,
        &order.pre,
        &aux.color,
        words_layout::clock_at(words),
        class,
        label,
    );
    words_layout::lay_clock(r.clock, words);
    words_layout::lay_labels(&r.class, &r.label, words);
    r.made
}
