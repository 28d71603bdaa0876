// A later round of stage 7: `span` is the length of a segment and `mask` one less than twice that. `greatest` asks for
// high, else low. Rounds past the sixteenth, which no state makes, count as the sixteenth: a segment then is longer
// than any table.
#![tactic(auto)]

ghost use Rattle.std.specs.Prelude.{◌≡◌, not, cond, ◌+◌, ◌-◌, ◌^◌, ◌≤◌, min, max, eqb, leb, ltb};
ghost use Rattle.std.specs.Int.Bits.{bit_and};
ghost use Rattle.base_lists.specs.Scatter.{op_of};
ghost use Rattle.spec_rules.specs.Basics.{ABSENT};
ghost use Rattle.spec_rules.specs.Range.{segment, range_later, little_later, big_later, global_later};
ghost use Rattle.stage07_segments.specs.Turns.{taken};

// The length of a segment in round `i`.
fn span_of(i: u16) -> u32
    ensures length { result ≡ 2 ^ min i 16 }
    ensures small { result ≤ 65536 }
{
    1u32 << i.min(16)
}

// Whether `x` is no multiple of a power of two, by the mask below it.
fn is_odd(mask: u32, x: u16) -> bool
    ensures { result ≡ not (eqb (bit_and x mask) 0) }
{
    x as u32 & mask != 0
}

// The segment that begins at place `q`.
fn segment_at(n: u16, global: &[u16; 256], q: u16) -> u16
    requires { n ≤ 256 }
    ensures { result ≡ segment n global.now q }
{
    if q < n { global[q as usize] } else { 0 }
}

// The place where a segment begins that ends before place `q`; absent, which is no place, where there is none.
fn place_before(span: u32, q: u16) -> u16
    ensures { result ≡ cond (ltb q span) ABSENT (q - span) }
{
    base_choice::choose((q as u32) < span, 65535, table_values::less_step(q, span))
}

// What `x` becomes with the segment at place `q`, if an end moves over it.
fn with_segment(greatest: bool, moves: bool, n: u16, global: &[u16; 256], q: u16, x: u16) -> u16
    requires { n ≤ 256 }
    ensures { result ≡ cond moves (op_of greatest x (segment n global.now q)) x }
{
    if moves {
        table_values::op_of(greatest, x, segment_at(n, global, q))
    } else {
        x
    }
}

// Both, little first.
fn take(
    greatest: bool,
    left: bool,
    right: bool,
    span: u32,
    n: u16,
    global: &[u16; 256],
    from: u16,
    to: u16,
    x: u16,
) -> u16
    requires { n ≤ 256 }
    ensures { result ≡ taken (op_of greatest) left right span n global.now from to x }
{
    let y = with_segment(greatest, left, n, global, from, x);
    let back = place_before(span, to);
    with_segment(greatest, right, n, global, back, y)
}

// A round of the units' tables in place: a unit's entries are read before they are made anew. Where little is not
// before big nothing moves.
fn units_move(
    i: u16,
    n: u16,
    least: &[u16; 256],
    greatest: &[u16; 256],
    low: &mut [u16; 256],
    high: &mut [u16; 256],
    little: &mut [u16; 256],
    big: &mut [u16; 256],
)
    requires { n ≤ 256 }
    ensures low { low.new
        ≡ range_later min (min i 16) n least.now little.old big.old
        low.old }
    ensures high { high.new
        ≡ range_later max (min i 16) n greatest.now little.old big.old
        high.old }
    ensures little { little.new ≡ little_later (min i 16) n big.old little.old }
    ensures big { big.new ≡ big_later (min i 16) n little.old big.old }
{
    let span = span_of(i);
    let mask = 2 * span - 1;
    for v in 0..n as usize {
        let from = little[v];
        let to = big[v];
        if to <= from {
            continue;
        }
        let left = is_odd(mask, from);
        let right = is_odd(mask, to);
        low[v] = take(false, left, right, span, n, least, from, to, low[v]);
        high[v] = take(true, left, right, span, n, greatest, from, to, high[v]);
        little[v] = step_on(left, span, from);
        big[v] = step_back(right, span, to);
    }
}

// Little a segment on, if it moves.
fn step_on(moves: bool, span: u32, x: u16) -> u16
    ensures { result ≡ cond moves (min (x + span) 2048) x }
{
    base_choice::choose(moves, table_values::bounded_step(x, span), x)
}

// Big a segment back, if it moves.
fn step_back(moves: bool, span: u32, x: u16) -> u16
    ensures { result ≡ cond moves (x - span) x }
{
    base_choice::choose(moves, table_values::less_step(x, span), x)
}

// A round of the segments in place: those at multiples of twice the span take in the next.
fn segments_move(i: u16, n: u16, low: &mut [u16; 256], high: &mut [u16; 256])
    requires { n ≤ 256 }
    ensures low { low.new ≡ global_later min (min i 16) n low.old }
    ensures high { high.new ≡ global_later max (min i 16) n high.old }
{
    let span = span_of(i);
    let step = span as usize;
    let period = 2 * step;
    let last = table_values::less_step(n, span) as usize;
    for q in (0..last).step_by(period) {
        let next = q + step;
        low[q] = low[q].min(low[next]);
        high[q] = high[q].max(high[next]);
    }
}

// Round `i` of all tables, the units' by the segments as they stand before it. Of more than 256 units, which no state
// has, nothing is changed.
pub fn double(
    i: u16,
    n: u16,
    low: &mut [u16; 256],
    high: &mut [u16; 256],
    little: &mut [u16; 256],
    big: &mut [u16; 256],
    least: &mut [u16; 256],
    greatest: &mut [u16; 256],
)
    ensures low { low.new
        ≡ cond (leb n 256) (range_later min (min i 16) n least.old little.old big.old
        low.old) low.old }
    ensures high { high.new
        ≡ cond (leb n 256) (range_later max (min i 16) n greatest.old little.old big.old
        high.old) high.old }
    ensures little { little.new
        ≡ cond (leb n 256) (little_later (min i 16) n big.old little.old) little.old }
    ensures big { big.new
        ≡ cond (leb n 256) (big_later (min i 16) n little.old big.old) big.old }
    ensures least { least.new
        ≡ cond (leb n 256) (global_later min (min i 16) n least.old) least.old }
    ensures greatest { greatest.new
        ≡ cond (leb n 256) (global_later max (min i 16) n greatest.old) greatest.old }
{
    if 256 < n {
        return;
    }
    units_move(i, n, least, greatest, low, high, little, big);
    segments_move(i, n, least, greatest);
}
