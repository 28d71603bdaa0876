// Load on words: of a fresh table, of a stored one, and with a tree drawn by the planner.
#![tactic(auto)]

ghost use Rattle.std.specs.Prelude.{◌≡◌, cond, eqb};
ghost use Rattle.table.specs.Table.{stored_refusal, refusal_as};
ghost use Rattle.spec_machine.specs.Load.{load_refusal, stored_load_refusal, loaded, planned_load_refusal};
ghost use Rattle.spec_machine.specs.Load.{planned_loaded};
ghost use Rattle.words_layout.specs.Layout.{state_of};
ghost use Rattle.words_load.specs.Begun.{front_begun, back_begun};

use words_layout::STATE_WORDS;

// Of a fresh table: 4 to 6, 15, 16, 7 to 9, 22. The number of the first check that fails, with the words as they were;
// else 0, and the words of the loaded state.
pub fn load(units: u16, table: &[u16], levels: &[i16], words: &mut [u16; STATE_WORDS]) -> u8
    ensures number { result ≡ load_refusal
        (record { units = units; words = table.now; levels = levels.now }) }
    ensures words { state_of words.new
        ≡ cond (eqb (load_refusal (record { units = units; words = table.now; levels = levels.now }))
        0) (loaded (record { units = units; words = table.now; levels = levels.now }))
        (state_of words.old) }
{
    load_as(true, units, table, levels, words)
}

// Of a stored table: the same without 22.
pub fn load_stored(units: u16, table: &[u16], levels: &[i16], words: &mut [u16; STATE_WORDS]) -> u8
    ensures number { result ≡ stored_load_refusal
        (record { units = units; words = table.now; levels = levels.now }) }
    ensures words { state_of words.new
        ≡ cond (eqb (stored_load_refusal (record {
          units = units;
          words = table.now;
          levels = levels.now;
        })) 0)
        (loaded (record { units = units; words = table.now; levels = levels.now }))
        (state_of words.old) }
{
    load_as(false, units, table, levels, words)
}

// With a table of parents drawn by the planner: 4 to 6, 15, 16, 7 to 9, 17, 18, 22.
pub fn load_planned(
    units: u16,
    table: &[u16],
    levels: &[i16],
    parents: &[u16],
    words: &mut [u16; STATE_WORDS],
) -> u8
    ensures number { result ≡ planned_load_refusal
        (record { units = units; words = table.now; levels = levels.now }) parents.now }
    ensures words { state_of words.new
        ≡ cond (eqb (planned_load_refusal (record {
          units = units;
          words = table.now;
          levels = levels.now;
        }) parents.now) 0)
        (planned_loaded (record { units = units; words = table.now; levels = levels.now })
        parents.now) (state_of words.old) }
{
    let refused = load_plan::refusal(units, table, levels, parents);
    if refused != 0 {
        return refused;
    }
    lay_planned(units, table, levels, parents, words);
    0
}

// The state of a table and parents that pass, over any words.
fn lay_planned(
    units: u16,
    table: &[u16],
    levels: &[i16],
    parents: &[u16],
    words: &mut [u16; STATE_WORDS],
)
    requires { planned_load_refusal (record { units = units; words = table.now; levels = levels.now }) parents.now
        ≡ 0 }
    ensures { state_of words.new
        ≡ planned_loaded (record { units = units; words = table.now; levels = levels.now })
        parents.now }
{
    lay_loaded(units, table, levels, words);
    let drawn = load_begin::plan(parents);
    words_layout::lay_plan(drawn.given, &drawn.parent, words);
}

// Either of the first two.
fn load_as(
    fresh: bool,
    units: u16,
    table: &[u16],
    levels: &[i16],
    words: &mut [u16; STATE_WORDS],
) -> u8
    ensures number { result ≡ refusal_as fresh units table.now levels.now }
    ensures words { state_of words.new
        ≡ cond (eqb (refusal_as fresh units table.now levels.now) 0)
        (loaded (record { units = units; words = table.now; levels = levels.now }))
        (state_of words.old) }
{
    let refused = table::refusal(fresh, units, table, levels);
    if refused != 0 {
        return refused;
    }
    lay_loaded(units, table, levels, words);
    0
}

// The state of a table that passes, over any words.
fn lay_loaded(units: u16, table: &[u16], levels: &[i16], words: &mut [u16; STATE_WORDS])
    requires { stored_refusal units table.now levels.now ≡ 0 }
    ensures { state_of words.new
        ≡ loaded (record { units = units; words = table.now; levels = levels.now }) }
{
    words_layout::lay_table(units, table, levels, words);
    words_layout::lay_clock(load_begin::clock(), words);
    front(words);
    back(words);
}

// The groups of the stages 1 to 6, and no tree of the planner's.
fn front(words: &mut [u16; STATE_WORDS])
    ensures { state_of words.new ≡ front_begun (state_of words.old) }
{
    let components = load_begin::components();
    words_layout::lay_components(&components.color, words);
    let tree = load_begin::tree();
    words_layout::lay_tree(&tree.parent, &tree.dist, words);
    let tour = load_begin::tour();
    words_layout::lay_tour(&tour.next, &tour.pred, words);
    let ranking = load_begin::ranking();
    words_layout::lay_ranking(&ranking.jump, &ranking.sum, words);
    let order = load_begin::order();
    words_layout::lay_order(&order.forward, &order.nd, &order.pre, words);
    let plan = load_begin::unplanned();
    words_layout::lay_plan(plan.given, &plan.parent, words);
}

// Those of the stages 7 to 10.
fn back(words: &mut [u16; STATE_WORDS])
    ensures { state_of words.new ≡ back_begun (state_of words.old) }
{
    let range = load_begin::range();
    words_layout::lay_range(&range.low, &range.high, &range.little, &range.big, words);
    let global = load_begin::global();
    words_layout::lay_global(&global.low, &global.high, words);
    let aux = load_begin::aux();
    words_layout::lay_aux(&aux.parents, &aux.links, &aux.color, words);
    let labels = load_begin::labels();
    words_layout::lay_labels(&labels.class, &labels.label, words);
}
