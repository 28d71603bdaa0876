// Whether a state is well formed (document 01: kept). Its numbers and tables are lent one by one, so no copy is made.
#![tactic(auto)]

ghost use Rattle.std.specs.Prelude.{◌≡◌, Bool, [], ◌∷◌, ℕ};
ghost use Rattle.base_lists.specs.Folds.{every};
ghost use Rattle.table_values.specs.Tops.{Tells};
ghost use Rattle.spec_machine.specs.WellFormed.{well_formed};

use spec_state::Clock;
use table_values::bounds;
use table_values::bounds::Limit;

pub fn kept(
    units: u16,
    links: u16,
    clock: Clock,
    ends: &[u16; 2048],
    color: &[u16; 256],
    parent: &[u16; 256],
    dist: &[u16; 256],
    next: &[u16; 512],
    pred: &[u16; 512],
    jump: &[u16; 512],
    sum: &[u16; 512],
    forward: &[u16; 512],
    nd: &[u16; 256],
    pre: &[u16; 256],
    low: &[u16; 256],
    high: &[u16; 256],
    little: &[u16; 256],
    big: &[u16; 256],
    least: &[u16; 256],
    greatest: &[u16; 256],
    parents: &[u16; 256],
    linked: &[u16; 1024],
    classes: &[u16; 256],
    class: &[u16; 1024],
    label: &[u16; 1024],
    levels: &[i16; 1024],
    given: u16,
    plan: &[u16; 256],
) -> bool
    ensures { result
        ≡ well_formed (record {
          table = record {
            units = units;
            links = links;
            ends = ends.now;
            levels = levels.now;
          };
          clock = clock;
          components = record { color = color.entry.now };
          plan = record { given = given; parent = plan.now };
          tree = record { parent = parent.entry.now; dist = dist.now };
          tour = record { next = next.entry.now; pred = pred.now };
          ranking = record { jump = jump.entry.now; sum = sum.now };
          order = record { forward = forward.entry.now; nd = nd.now; pre = pre.now };
          range = record {
            low = low.entry.now;
            high = high.now;
            little = little.now;
            big = big.now;
          };
          global = record { low = least.now; high = greatest.now };
          aux = record { parents = parents.entry.now; links = linked.now; color = classes.now };
          labels = record { class = class.entry.now; label = label.now };
        }) }
{
    if !stage_clock::front_ok(units, links, ends, clock) {
        return false;
    }
    let unit = bounds::names(units as u32);
    let ended = bounds::within(unit, ends);
    let named = all_within(unit, &[color, parent, classes, class, plan]);
    let arc = bounds::names(2 * (units as u32));
    let arcs = all_within(arc, &[next, pred, jump]);
    let labels = bounds::names_ok(links as u32, label);
    let dists = bounds::dists_ok(dist);
    let number = bounds::numbers();
    let sums = all_within(number, &[sum, forward, nd, pre]);
    let ranges = all_within(number, &[low, high, little, big]);
    let joins = all_within(number, &[least, greatest, parents, linked]);
    let heard = table_levels::all_in_range(levels);
    ended & named & arcs & labels & dists & sums & ranges & joins & heard & (given <= 2048)
}

// Every entry of every table passes.
fn all_within(limit: Limit, tables: &[&[u16]]) -> bool
    ensures { (p : ℕ → Bool) → Tells limit.more limit.most p → result ≡ every (λ t. every p t.now) tables.now }
{
    let mut ok = true;
    for t in tables {
        ok &= bounds::within(limit, t);
    }
    ok
}
