//! Common divisors of two units, by Euclid's way.

ghost use Rattle.std.specs.Prelude.{◌≤◌};
ghost use Rattle.sources.specs.Divisors.{Solved};

/// A common divisor of a base and another unit, and how many of the other unit leave it by the base.
#[derive(Clone, Copy)]
pub(crate) struct Solution {
    pub(crate) divisor: u32,
    pub(crate) times: u32,
}

/// The greatest common divisor, since whatever divides both units divides what is left of them.
/// Where Euclid's way takes turns away, this adds what makes them whole bases, so that no number goes below 0.
// A book finds a divisor without this. Below both crates it would be a public call, and none of those may ask for ranges.
pub(crate) fn solve(base: u32, other: u32) -> Solution
    requires { (1 ≤ base) × ((base ≤ 4096) × (1 ≤ other)) }
    ensures { Solved base other result.divisor result.times }
{
    let rest = other % base;
    if rest == 0 {
        return Solution {
            divisor: base,
            times: 1,
        };
    }
    let below = solve(rest, base);
    let divisor = below.divisor;
    let turns = (base * below.times - divisor) / rest;
    Solution {
        divisor,
        times: base - turns % base,
    }
}
