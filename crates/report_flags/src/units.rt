// Single points: units at which links of two labels meet.
ghost use Rattle.std.specs.Prelude.{◌≡◌, true, false};
ghost use Rattle.table.specs.Table.{end_a, end_b};
ghost use Rattle.spec_rules.specs.Basics.{at};
ghost use Rattle.spec_rules.specs.Labels.{touches, single};
ghost use Rattle.report_flags.specs.Flags.{flag_table};
ghost use Rattle.report_flags.specs.LabelBits.{op_of, start_of, label_bits, takes_in, BitTable};

// The bits that either of two has, or those that both have.
fn op(any: bool, x: u16, y: u16) -> u16
    ensures { result ≡ op_of any x y }
{
    if any { x | y } else { x & y }
}

// The bits that one of no labels has, or that all have.
fn start(any: bool) -> u16
    ensures { result ≡ start_of any }
{
    if any { 0 } else { 65535 }
}

// Whether `u` is an end of link `j`.
fn touches(ends: &[u16], u: u16, j: u16) -> bool
    ensures { result ≡ touches ends.now u j }
{
    let at = 2 * (j as usize);
    base_slices::word(ends, at) == u || base_slices::word(ends, at + 1) == u
}

// The label of link `j`: links of one label count once.
fn label_of(label: &[u16], j: u16) -> u16
    ensures { result ≡ at label.now j }
{
    base_slices::word(label, j as usize)
}

// The bits that some label that meets `u` has, or that all have.
fn label_bits(any: bool, links: u16, ends: &[u16], label: &[u16], u: u16) -> u16
    ensures { result ≡ label_bits any links ends.now label.now u }
{
    let none = start(any);
    let mut z = none;
    for j in 0..links {
        let x = base_choice::choose(touches(ends, u, j), label_of(label, j), none);
        z = op(any, z, x);
    }
    z
}

// Whether `u` is a single point: the bits of all its labels are fewer than the bits of any.
pub fn single(links: u16, ends: &[u16], label: &[u16], u: u16) -> bool
    ensures { result ≡ single links ends.now label.now u }
{
    label_bits(false, links, ends, label, u) < label_bits(true, links, ends, label, u)
}

// Entry `a` takes in `x`.
fn take_in(any: bool, t: &mut [u16], a: u16, x: u16)
    ensures { t.new ≡ takes_in any t.old a x }
{
    let y = op(any, base_slices::word(t, a as usize), x);
    base_slices::put(t, a as usize, y);
}

// Both ends of link `j` take in its label.
fn take_link(any: bool, ends: &[u16], label: &[u16], j: u16, t: &mut [u16])
    ensures { t.new ≡ takes_in any
        (takes_in any t.old (end_a ends.now j) (at label.now j))
        (end_b ends.now j) (at label.now j) }
{
    let at = 2 * (j as usize);
    let x = label_of(label, j);
    take_in(any, t, base_slices::word(ends, at), x);
    take_in(any, t, base_slices::word(ends, at + 1), x);
}

// The bits of all labels that meet each unit, and of any: one pass over the links.
fn label_tables(links: u16, ends: &[u16], label: &[u16], low: &mut [u16], high: &mut [u16])
    requires { BitTable false 0 ends.now label.now low.old
        × BitTable true 0 ends.now label.now high.old }
    ensures low { BitTable false links ends.now label.now low.new }
    ensures high { BitTable true links ends.now label.now high.new }
{
    for j in 0..links {
        take_link(false, ends, label, j, low);
        take_link(true, ends, label, j, high);
    }
}

// The flags of all single points.
pub fn singles(units: u16, links: u16, ends: &[u16], label: &[u16]) -> [u8; 256]
    ensures { result ≡ flag_table 256 units (single links ends.now label.now) }
{
    let mut low = [65535u16; 256];
    let mut high = [0u16; 256];
    label_tables(links, ends, label, &mut low, &mut high);
    let mut table = [0u8; 256];
    for u in 0..units {
        let at = u as usize;
        let meets = u8::from(base_slices::word(&low, at) < base_slices::word(&high, at));
        base_slices::put_byte(&mut table, at, meets);
    }
    table
}
