// Small value functions: inside a loop they stand for branches, so that what a turn does is one equation.
#![tactic(auto)]

ghost use Rattle.std.specs.Prelude.{◌≡◌, ◌+◌, ◌-◌, ◌/◌, min};
ghost use Rattle.base_lists.specs.Scatter.{op_of};

pub mod bounds;
pub mod counts;
pub mod firsts;
pub mod propagation;
pub mod tables;

// Half of the steps from a rank to another, the two included; 0 where it lies before.
pub fn half_span(from: u16, to: u16) -> u16
    ensures { result ≡ (to + 1 - from) / 2 }
{
    ((u32::from(to) + 1).saturating_sub(u32::from(from)) / 2) as u16
}

// The greater of two, or the lesser.
pub fn op_of(greatest: bool, x: u16, y: u16) -> u16
    ensures { result ≡ op_of greatest x y }
{
    if greatest { x.max(y) } else { x.min(y) }
}

// A number stored: one that would exceed 2,048 is stored as 2,048.
pub fn bounded(x: u32) -> u16
    ensures { result ≡ min x 2048 }
{
    x.min(2048) as u16
}

// A number as a word holds it: one that no word holds is absent.
pub fn word_of(x: u32) -> u16
    ensures { result ≡ min x 65535 }
{
    x.min(65535) as u16
}

// The sum of a word and a number that may be large, stored within its bound.
pub fn bounded_step(x: u16, y: u32) -> u16
    ensures { result ≡ min (x + y) 2048 }
{
    bounded(y.saturating_add(u32::from(x)))
}

// What is left of a word after a number that may be large is taken away.
pub fn less_step(x: u16, y: u32) -> u16
    ensures { result ≡ x - y }
{
    u32::from(x).saturating_sub(y) as u16
}

// A sum stored within its bound.
pub fn bounded_sum(x: u16, y: u16) -> u16
    ensures { result ≡ min (x + y) 2048 }
{
    bounded(u32::from(x) + u32::from(y))
}
