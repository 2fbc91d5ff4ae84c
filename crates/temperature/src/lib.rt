// T.Mes: the raw temperature put through the temperature equation, then rounded to the nearest hundredth of a degree.
#![tactic(auto)]

ghost use Rattle.std.specs.Prelude.{◌≡◌};
ghost use Rattle.temperature.specs.Equation.{equation_of};
ghost use Rattle.temperature.specs.Nearest.{nearest_of};

use ground::ranges;

// The least and the most that a temperature may be, in hundredths of a degree. Both are exact as floats.
const COLDEST: f64 = ranges::COLDEST as f64;

const HOTTEST: f64 = ranges::HOTTEST as f64;

// Eq1.T, Eq2.T and Eq3.T, which travel together as one set.
#[derive(Clone, Copy)]
pub struct Coefficients {
    pub eq1: f64,
    pub eq2: f64,
    pub eq3: f64,
}

// Six operations, each rounding once. The order is part of the promise: another order can give another float. A raw value is exact as a float.
#[tactic(auto, unfolding(crate::specs::Equation::equation_of))]
pub fn equation(c: Coefficients, raw: u16) -> f64
    ensures { result ≡ equation_of c raw }
{
    let b = f64::from(raw);
    let square = b * b;
    let linear = c.eq2 * b;
    let quadratic = c.eq3 * square;
    let start = c.eq1 + linear;
    let degrees = start + quadratic;
    degrees * 100.0
}

// T.Mes in hundredths of a degree; None: the measurement failed.
// x + 0.5 could itself be rounded, so it is not used. x + x is exact. The answer is half of its whole part t, rounded away from zero: t / 2 rounds toward zero, and
// the remainder t % 2, which is -1, 0 or 1, makes up for it.
pub fn nearest_hundredth(x: f64) -> Option<i64>
    ensures { result ≡ nearest_of x }
{
    if (COLDEST..=HOTTEST).contains(&x) {
        let t = std::num::truncating_f64_to_i64(x + x);
        Some(t / 2 + t % 2)
    } else {
        None
    }
}

// T.Mes in hundredths of a degree; None: the measurement failed.
pub fn measure(c: Coefficients, raw: u16) -> Option<i64>
    ensures { result ≡ nearest_of (equation_of c raw) }
{
    nearest_hundredth(equation(c, raw))
}
