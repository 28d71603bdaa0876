// The rest of stage 2's rounds at once: a search finds distances ahead of them, and tests say whether these are right.
// The search is proved to end and to stay within its tables, no more.
#![tactic(auto)]

ghost use Rattle.std.specs.Prelude.{IfSome};
ghost use Rattle.stage02_leap.specs.Goal.{Leapt};

pub use distances::Leap;

mod ahead;
mod distances;

// From the round after `made` rounds on, if the distances found are right.
pub fn leap(
    units: u16,
    links: u16,
    made: u16,
    ends: &[u16; 2048],
    levels: &[i16; 1024],
    parent: [u16; 256],
    dist: [u16; 256],
) -> Option<Leap>
    ensures leapt { IfSome result (λ (l : Leap).
        Leapt units links made l.last ends.now levels.now parent dist l.parent l.dist) }
{
    let found = ahead::distances(units.min(256), links.min(1024), made, ends, dist)?;
    distances::tested(
        units, links, made, ends, levels, &found.far, found.tip, parent, dist,
    )
}
