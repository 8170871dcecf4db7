// The nearest quotient of two numbers past 64 bits.
#![tactic(auto)]

ghost use Rattle.std.specs.Prelude.{◌≡◌, ◌+◌, ◌*◌, ◌^◌, ◌<◌, ◌≤◌};
ghost use Rattle.mixing.specs.Nearest.{nearest};
ghost use Rattle.exact.specs.Fits.{Fits};

/// n / d, nearest, halves up.
pub fn nearest(n: u128, d: u128) -> u32
    requires { Fits n d }
    ensures { result ≡ nearest n d }
{
    let (quotient, rest) = divide(n, d);
    // Twice the rest may pass 128 bits.
    if rest < d - rest {
        quotient as u32
    } else {
        quotient as u32 + 1
    }
}

// The whole quotient and the rest. Numbers of 128 bits are not divided: the compiler would call a function for it that lies
// outside of the library.
fn divide(n: u128, d: u128) -> (u64, u128)
    requires some { 0 < d }
    requires most { n < d * 2 ^ 32 }
    ensures whole { result.0 * d + result.1 ≡ n }
    ensures below { result.1 < d }
{
    let mut quotient = leading(n, d);
    let mut rest = n - quotient as u128 * d;
    // The leading bits find all but a few, and mostly all.
    while d <= rest {
        quotient += 1;
        rest -= d;
    }
    (quotient, rest)
}

// The quotient of the leading bits, 63 of n and as many less of d, which is rounded up: never too large.
fn leading(n: u128, d: u128) -> u64
    requires { 0 < d }
    ensures { result * d ≤ n }
{
    if n < d {
        return 0;
    }
    let shift = 65u32.saturating_sub(n.leading_zeros());
    (n >> shift) as u64 / (((d - 1) >> shift) as u64 + 1)
}
