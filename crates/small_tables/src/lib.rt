// T-13: the table of a number among those of a few units, the mask of its single points, and the line that tells both.
#![tactic(auto)]

ghost use Rattle.std.specs.Prelude.{◌≡◌, ◌+◌, ◌-◌, ◌≤◌, ◌<◌, min, length};
ghost use Rattle.file_frames.specs.Frame.{line_over};
ghost use Rattle.small_tables.specs.Small.{table_of, mask_of, small_body};
ghost use Rattle.small_tables.specs.SmallLaws.{laid, blank, takes, row_by};

use file_frames::line as lines;

pub mod listing;

// The most units of a small site, and the words of all its pairs.
pub const MOST: u16 = 5;

// The kind of its line.
pub const KIND: u8 = 0x22;

// A table: its words stand first, 0 past them.
#[derive(Clone, Copy)]
pub struct Small {
    pub words: [u16; 20],
    pub count: u16,
}

// A table so far, and the bits of the number that are left.
#[derive(Drop)]
struct Drawing {
    words: [u16; 20],
    count: u16,
    rest: u16,
}

// The table with that number; more units than five count as five.
pub fn table(units: u16, number: u16) -> Small
    ensures words { result.words ≡ laid (table_of (min units 5) number) }
    ensures count { result.count ≡ length (table_of (min units 5) number) }
{
    let n = units.min(MOST);
    let mut x = none_of(number);
    for a in 0..n {
        x = row(a, n, x);
    }
    let words = x.words;
    Small {
        words,
        count: x.count,
    }
}

// Before the first pair.
fn none_of(number: u16) -> Drawing
    ensures { result ≡ blank number }
{
    Drawing {
        words: [0; 20],
        count: 0,
        rest: number,
    }
}

// The pairs of unit `a` with those after it.
fn row(a: u16, units: u16, from: Drawing) -> Drawing
    requires { (a < units) × (units ≤ 5) }
    ensures { result ≡ row_by a (a + 1) (units - (a + 1)) from }
{
    let mut x = from;
    for b in a + 1..units {
        x = taken(x, a, b);
    }
    x
}

// The lowest bit that is left says whether the pair is taken.
fn taken(x: Drawing, a: u16, b: u16) -> Drawing
    ensures { result ≡ takes a b x }
{
    let mut words = x.words;
    let count = x.count;
    let rest = x.rest / 2;
    if x.rest % 2 == 1 {
        base_slices::put(&mut words, count as usize, a);
        base_slices::put(&mut words, (count as usize) + 1, b);
        return Drawing {
            words,
            count: table_values::bounded_sum(count, 2),
            rest,
        };
    }
    Drawing { words, count, rest }
}

// Bit i is set where unit i is a single point.
pub fn mask(singles: [bool; 5]) -> u8
    ensures { result ≡ mask_of singles }
{
    let mut set: u16 = 0;
    let mut bit: u16 = 1;
    for single in singles {
        set += base_choice::choose(single, bit, 0);
        bit *= 2;
    }
    set as u8
}

// The line of a small site; nothing where it does not fit.
pub fn line(units: u16, number: u16, mask: u8, out: &mut [u8])
    ensures { out.new ≡ line_over (small_body units number mask) out.old }
{
    lines::two_numbers_and_byte(KIND, units, number, mask, out);
}
