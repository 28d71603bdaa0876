// lg, the number of doublings that reach a number.
#![tactic(auto)]

ghost use Rattle.std.specs.Prelude.{◌≡◌};
ghost use Rattle.base_log2.specs.Lg.{lg};

// Document 01's lg(x): from the leading zeros of x − 1, with 0 and 1 apart.
pub fn lg(x: u16) -> u16
    ensures { result ≡ lg x }
{
    if x <= 1 {
        0
    } else {
        16 - (x - 1).leading_zeros() as u16
    }
}
