// Stage 7, range: low and high over all descendants, by segments whose length doubles.
#![tactic(auto)]

mod local;

ghost use Rattle.std.specs.Prelude.{◌≡◌};
ghost use Rattle.spec_machine.specs.StageRun.{stage_run};
ghost use Rattle.stage07_range.specs.Rounds.{on, one};

use spec_state::Clock;
use table_values::bounds;

// The tables of the stage, those of the segments last, the clock, and the rounds made.
#[derive(Clone, Copy)]
pub struct Ran {
    pub low: [u16; 256],
    pub high: [u16; 256],
    pub little: [u16; 256],
    pub big: [u16; 256],
    pub least: [u16; 256],
    pub greatest: [u16; 256],
    pub clock: Clock,
    pub made: u16,
}

// Runs up to `budget` rounds of this stage.
pub fn run(
    units: u16,
    links: u16,
    budget: u16,
    ends: &[u16; 2048],
    parent: &[u16; 256],
    nd: &[u16; 256],
    pre: &[u16; 256],
    clock: Clock,
    low: [u16; 256],
    high: [u16; 256],
    little: [u16; 256],
    big: [u16; 256],
    least: [u16; 256],
    greatest: [u16; 256],
) -> Ran
    ensures { result ≡ stage_run (on units links ends.now)
        (one units links ends.now parent.now nd.now pre.now) budget
        (record {
          low = low;
          high = high;
          little = little;
          big = big;
          least = least;
          greatest = greatest;
          clock = clock;
          made = 0;
        }) }
{
    let fits = bounds::links_fit(units, links, ends);
    let most = base_log2::lg(units);
    let mut bottom = low;
    let mut top = high;
    let mut from = little;
    let mut to = big;
    let mut lows = least;
    let mut highs = greatest;
    let mut c = clock;
    let mut made: u16 = 0;
    while stage_clock::goes_on(fits, units, 7, made, budget, c) {
        let after = stage_clock::ticked(units, 7, c.made == most, 0, c);
        if c.made == 0 {
            local::begin(
                units,
                links,
                ends,
                parent,
                nd,
                pre,
                &mut bottom,
                &mut top,
                &mut from,
                &mut to,
                &mut lows,
                &mut highs,
            );
            c = after;
            made += 1;
            continue;
        }
        let i = c.made - 1;
        stage07_segments::double(
            i,
            units,
            &mut bottom,
            &mut top,
            &mut from,
            &mut to,
            &mut lows,
            &mut highs,
        );
        c = after;
        made += 1;
    }
    Ran {
        low: bottom,
        high: top,
        little: from,
        big: to,
        least: lows,
        greatest: highs,
        clock: c,
        made,
    }
}
