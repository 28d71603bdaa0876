// The groups of a state, laid over its words.
ghost use Rattle.std.specs.Prelude.{◌≡◌, ◌+◌, ◌≤◌, length, take};
ghost use Rattle.spec_machine.specs.State;
ghost use Rattle.spec_machine.specs.Load.{table_of};
ghost use Rattle.base_copies.specs.Parts.{laid};
ghost use Rattle.words_layout.specs.Layout.{state_of};
ghost use Rattle.words_layout.specs.TableLaid.{with_ends, with_levels};

use super::layout;
use super::layout::STATE_WORDS;
use spec_state::Clock;
use table::ABSENT;

// Two tables, each from its place on.
fn lay_two<'a>(one: &'a [u16], at: usize, two: &'a [u16], next: usize, words: &mut [u16])
    requires { (at + length one.now ≤ length words.old) × (next + length two.now ≤ length words.old) }
    ensures { words.new ≡ laid next two.now
        (laid at one.now words.old) }
{
    base_copies::lay(one, at, words);
    base_copies::lay(two, next, words);
}

// The counts and the ends that a load takes, made where they lie: its first 2,048 words, absent past the last.
fn lay_ends(units: u16, table: &[u16], words: &mut [u16; STATE_WORDS])
    ensures { state_of words.new
        ≡ with_ends units (take 2048 table.now) (state_of words.old) }
{
    let count = base_copies::held(2048, table.len());
    base_copies::lay(&[units, (count / 2) as u16], layout::UNITS, words);
    base_copies::fill(ABSENT, layout::ENDS, 2048, words);
    base_copies::lay(&table[..count], layout::ENDS, words);
}

// The levels, in the same way: the first 1,024, and 0 past the last.
fn lay_levels(levels: &[i16], words: &mut [u16; STATE_WORDS])
    ensures { state_of words.new
        ≡ with_levels (take 1024 levels.now) (state_of words.old) }
{
    let count = base_copies::held(1024, levels.len());
    base_copies::fill(0, layout::LEVELS, 1024, words);
    base_copies::lay_levels(&levels[..count], layout::LEVELS, words);
}

// The table that a load takes.
pub fn lay_table(units: u16, table: &[u16], levels: &[i16], words: &mut [u16; STATE_WORDS])
    ensures { state_of words.new
        ≡ State.with_table (table_of (record {
          units = units;
          words = take 2048 table.now;
          levels = take 1024 levels.now;
        })) (state_of words.old) }
{
    lay_ends(units, table, words);
    lay_levels(levels, words);
}

// The clock.
pub fn lay_clock(c: Clock, words: &mut [u16; STATE_WORDS])
    ensures { state_of words.new ≡ State.with_clock c (state_of words.old) }
{
    base_copies::lay(
        &[c.stage, c.made, c.rounds, c.requests],
        layout::CLOCK,
        words,
    );
}

// Stage 1.
pub fn lay_components(color: &[u16; 256], words: &mut [u16; STATE_WORDS])
    ensures { state_of words.new
        ≡ State.with_components (record { color = color.entry.now }) (state_of words.old) }
{
    base_copies::lay(color, layout::COLOR, words);
}

// The planner's tree.
pub fn lay_plan(given: u16, parent: &[u16; 256], words: &mut [u16; STATE_WORDS])
    ensures { state_of words.new
        ≡ State.with_plan (record { given = given; parent = parent.now }) (state_of words.old) }
{
    base_copies::lay(parent, layout::PLAN, words);
    base_copies::lay(&[given], layout::GIVEN, words);
}

// Stage 2.
pub fn lay_tree<'a>(parent: &'a [u16; 256], dist: &'a [u16; 256], words: &mut [u16; STATE_WORDS])
    ensures { state_of words.new
        ≡ State.with_tree (record { parent = parent.entry.now; dist = dist.now })
        (state_of words.old) }
{
    lay_two(parent, layout::PARENT, dist, layout::DIST, words);
}

// Stage 3.
pub fn lay_tour<'a>(next: &'a [u16; 512], pred: &'a [u16; 512], words: &mut [u16; STATE_WORDS])
    ensures { state_of words.new
        ≡ State.with_tour (record { next = next.entry.now; pred = pred.now })
        (state_of words.old) }
{
    lay_two(next, layout::NEXT, pred, layout::PRED, words);
}

// Stages 4 and 6.
pub fn lay_ranking<'a>(jump: &'a [u16; 512], sum: &'a [u16; 512], words: &mut [u16; STATE_WORDS])
    ensures { state_of words.new
        ≡ State.with_ranking (record { jump = jump.entry.now; sum = sum.now })
        (state_of words.old) }
{
    lay_two(jump, layout::JUMP, sum, layout::SUM, words);
}

// Stages 5 and 6.
pub fn lay_order<'a>(
    forward: &'a [u16; 512],
    nd: &'a [u16; 256],
    pre: &'a [u16; 256],
    words: &mut [u16; STATE_WORDS],
)
    ensures { state_of words.new
        ≡ State.with_order (record { forward = forward.entry.now; nd = nd.now; pre = pre.now })
        (state_of words.old) }
{
    lay_two(forward, layout::FORWARD, nd, layout::ND, words);
    base_copies::lay(pre, layout::PRE, words);
}

// Stage 7.
pub fn lay_range<'a>(
    low: &'a [u16; 256],
    high: &'a [u16; 256],
    little: &'a [u16; 256],
    big: &'a [u16; 256],
    words: &mut [u16; STATE_WORDS],
)
    ensures { state_of words.new
        ≡ State.with_range (record {
          low = low.entry.now;
          high = high.now;
          little = little.now;
          big = big.now;
        }) (state_of words.old) }
{
    lay_two(low, layout::LOW, high, layout::HIGH, words);
    lay_two(little, layout::LITTLE, big, layout::BIG, words);
}

// Stage 7, the segments.
pub fn lay_global<'a>(low: &'a [u16; 256], high: &'a [u16; 256], words: &mut [u16; STATE_WORDS])
    ensures { state_of words.new
        ≡ State.with_global (record { low = low.entry.now; high = high.now })
        (state_of words.old) }
{
    lay_two(low, layout::LEAST, high, layout::GREATEST, words);
}

// Stages 8 and 9.
pub fn lay_aux<'a>(
    parents: &'a [u16; 256],
    links: &'a [u16; 1024],
    color: &'a [u16; 256],
    words: &mut [u16; STATE_WORDS],
)
    ensures { state_of words.new
        ≡ State.with_aux (record {
          parents = parents.entry.now;
          links = links.now;
          color = color.now;
        }) (state_of words.old) }
{
    lay_two(parents, layout::PARENTS, links, layout::JOINED, words);
    base_copies::lay(color, layout::CLASSES, words);
}

// Stage 10.
pub fn lay_labels<'a>(
    class: &'a [u16; 1024],
    label: &'a [u16; 1024],
    words: &mut [u16; STATE_WORDS],
)
    ensures { state_of words.new
        ≡ State.with_labels (record { class = class.entry.now; label = label.now })
        (state_of words.old) }
{
    lay_two(class, layout::CLASS, label, layout::LABEL, words);
}
