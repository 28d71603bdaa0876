// The ceilings of the stages and the countdown.
ghost use Rattle.std.specs.Prelude.{◌≡◌, ◌≤◌, min};
ghost use Rattle.spec_rules.specs.Ceilings.{ranking_ceiling, ceiling, countdown};

// The most rounds that a ranking of the arcs of `units` units takes.
fn ranking_ceiling(units: u16) -> u16
    requires { units ≤ 256 }
    ensures { result ≡ ranking_ceiling units }
{
    base_log2::lg((2 * units).saturating_sub(2)) + 1
}

// The ceiling of a stage from 1 to 10.
pub(crate) fn ceiling(units: u16, stage: u16) -> u16
    requires { (units ≤ 256) × ((1 ≤ stage) × (stage ≤ 10)) }
    ensures { result ≡ ceiling units stage }
{
    match stage {
        1 => units.max(2),
        2 => units + 1,
        4 | 6 => ranking_ceiling(units),
        7 => base_log2::lg(units) + 1,
        8 => 1,
        9 => units.saturating_sub(1).max(2),
        _ => 2,
    }
}

// The same for every unit count, of which at most 256 count, and every stage.
pub(crate) fn stage_ceiling(units: u16, stage: u16) -> u16
    ensures { result ≡ ceiling (min units 256) stage }
{
    if 10 < stage {
        0
    } else {
        ceiling(units.min(256), stage.max(1))
    }
}

// The rounds still to come at most: the ceilings from this stage on, less the rounds made of it. At most 256 units
// count.
pub fn countdown(units: u16, stage: u16, made: u16) -> u16
    ensures { result ≡ countdown (min units 256) stage made }
{
    let count = units.min(256);
    let mut sum: u16 = 0;
    for k in stage.max(1)..11 {
        sum += ceiling(count, k);
    }
    sum.saturating_sub(made)
}
