// Choices of values: inside a loop they stand for branches, so that what a turn does is one equation.
#![tactic(auto)]

ghost use Rattle.std.specs.Prelude.{◌≡◌, cond, ◌&&◌, ◌||◌, ◌+◌, ◌-◌, ◌≤◌, min, max};

// `x` where the test holds, else `y`.
pub fn choose(test: bool, x: u16, y: u16) -> u16
    ensures { result ≡ cond test x y }
{
    if test { x } else { y }
}

// The same of tests.
pub fn pick(test: bool, x: bool, y: bool) -> bool
    ensures { result ≡ cond test x y }
{
    if test { x } else { y }
}

// Both tests hold.
pub fn both(x: bool, y: bool) -> bool
    ensures { result ≡ (x && y) }
{
    if x { y } else { false }
}

// One of the tests holds.
pub fn either(x: bool, y: bool) -> bool
    ensures { result ≡ (x || y) }
{
    if x { true } else { y }
}

// 1 where the test holds, else 0.
pub fn one_if(test: bool) -> u16
    ensures { (result ≡ cond test 1 0) × (result ≤ 1) }
{
    if test { 1 } else { 0 }
}

// The lesser of two.
pub fn least_of(x: u16, y: u16) -> u16
    ensures { result ≡ min x y }
{
    if x < y { x } else { y }
}

// The greater of two.
pub fn greatest_of(x: u16, y: u16) -> u16
    ensures { result ≡ max x y }
{
    if x < y { y } else { x }
}

// What is left of `x` after `y` is taken away, 0 where `y` is greater.
pub fn difference(x: u16, y: u16) -> u16
    ensures { result ≡ x - y }
{
    if x < y { 0 } else { x - y }
}

// A sum within its limit.
pub fn limited(x: u16, y: u16, most: u16) -> u16
    ensures { result ≡ min (x + y) most }
{
    let sum = x as u32 + y as u32;
    if sum < most as u32 { sum as u16 } else { most }
}
