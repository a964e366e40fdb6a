// The component of an improvement: how an initial rate gives way to a long-term rate over the years since F. It is given exactly, by
// its whole part and its remainder over its divisor.
#![tactic(auto)]

ghost use Rattle.std.specs.Prelude.{◌≡◌, ◌*◌, ◌≤◌, pos, nat_abs, ◌-ℤ◌, ◌*ℤ◌};
ghost use Rattle.basis.specs.Basis.{ConvergenceLimits};
ghost use Rattle.arithmetic.specs.MixedNumbers.{mixed_of};
ghost use Rattle.component.specs.Component.{slope_of, component_of};

use arithmetic::Mixed;
use basis::Convergence;

// I − L
fn excess(initial: i32, long: i32) -> i64
    ensures { result ≡ initial -ℤ long }
{
    i64::from(initial) - i64::from(long)
}

// 10,000T + (8P − 20,000)n, with P in hundredths of a per cent. The two signs are gathered apart, so that only the difference is signed.
#[tactic(auto, using(crate::proofs::Size::slopes))]
fn slope(period: u64, remaining: u64, years: u64) -> i64
    requires { (period ≤ 50) × (remaining ≤ 15_000) × (years ≤ period) }
    ensures { result ≡ slope_of period remaining years }
{
    let up = 10_000 * period + 8 * remaining * years;
    let down = 20_000 * years;
    (up as i64) - (down as i64)
}

// (I − L) (T − n)² (10,000T + (8P − 20,000)n), the dividend over 10,000T³
fn weighted(excess: i64, left: u64, slope: i64) -> i64
    requires { (nat_abs excess ≤ 400_000_000) × (left ≤ 50) × (nat_abs slope ≤ 5_500_000) }
    ensures { result ≡ excess *ℤ (pos (left * left) *ℤ slope) }
{
    excess * (((left * left) as i64) * slope)
}

// The component of terms within their limits, a number of years after F. L is whole, so that only what is above it is divided.
pub fn component(terms: Convergence, years: u32) -> Mixed
    requires { ConvergenceLimits terms }
    ensures { result ≡ mixed_of (component_of terms years) }
{
    let span = terms.period as u64;
    let past = years as u64;
    if past < span {
        let divisor = 10_000 * (span * span * span);
        let dividend = weighted(
            excess(terms.initial, terms.long),
            span - past,
            slope(span, terms.remaining as u64, past),
        );
        let share = arithmetic::divide(dividend, divisor);
        Mixed {
            whole: i64::from(terms.long) + share.whole,
            ..share
        }
    } else {
        Mixed {
            whole: i64::from(terms.long),
            remainder: 0,
            divisor: 1,
        }
    }
}
