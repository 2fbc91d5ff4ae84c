// The temperature: the nearest hundredth of a float, and the equation.
use print::{Bits, Or, Out};
use std::fmt::Display;
use std::io::Write;
use std::{fmt, io};
use temperature::Coefficients;

// The three coefficients, each by its bits.
#[derive(Clone, Copy)]
pub struct Equation(pub Coefficients);

impl Display for Equation {
    fn fmt<W: fmt::Write>(&self, f: &mut fmt::Formatter<W>) -> fmt::Result {
        let Coefficients { eq1, eq2, eq3 } = self.0;
        write!(f, "{} {} {}", Bits(eq1), Bits(eq2), Bits(eq3))
    }
}

fn floats(out: &mut Out) -> io::Result<()> {
    for x in [
        // H6
        -0.5,
        2000.5,
        -0.25,
        20000.0,
        20000.000000000004,
        // Halves, and the floats beside them.
        0.5,
        0.49999999999999994,
        -0.49999999999999994,
        0.5000000000000001,
        1.5,
        -1.5,
        2.5,
        -2.5,
        -2000.5,
        -2000.4999999999998,
        19999.5,
        19999.499999999996,
        -9999.5,
        // Both ends.
        19999.999999999996,
        -10000.0,
        -10000.000000000002,
        // The smallest, the largest, and no number.
        0.0,
        -0.0,
        5e-324,
        -5e-324,
        f64::MAX,
        f64::MIN,
        f64::INFINITY,
        f64::NEG_INFINITY,
        f64::NAN,
    ] {
        writeln!(
            out,
            "nearest {} = {}",
            Bits(x),
            Or(temperature::nearest_hundredth(x), "failed")
        )?;
    }
    Ok(())
}

fn equations(out: &mut Out) -> io::Result<()> {
    for (eq1, eq2, eq3, raw) in [
        (-40.0, 0.0078125, 0.0, 7_680),
        (-40.0, 0.0078125, 0.0, 0),
        (-40.0, 0.0078125, 0.0, 5_119),
        (-40.0, 0.0078125, 0.0, 5_120),
        (-40.0, 0.0078125, 0.0, 30_720),
        (-40.0, 0.0078125, 0.0, 30_721),
        (-40.0, 0.0078125, 0.0, 65_535),
        (-100.0, 0.0078125, 0.0, 0),
        (-100.01, 0.0078125, 0.0, 0),
        (f64::MAX, f64::MAX, 0.0, 65_535),
        (0.0, f64::MAX, f64::MIN, 65_535),
        (0.0, 0.0, 5e-324, 65_535),
        // Near a half, where the answer depends on the order of the operations.
        (-32.4, 0.00886, -1.45e-07, 7_000),
        (-72.1875, 0.00948, -1.5e-07, 15_500),
        (-61.4951, 0.00839, -1e-08, 12_700),
        (-7.89675, 0.00945, -1.3e-08, 4_500),
        (-47.555, 0.00552, -1.65e-07, 14_000),
        (-56.355, 0.00816, 1.2e-07, 8_000),
        (-65.524, 0.00737, -1.6e-08, 8_500),
        (-37.1522, 0.00844, -7e-08, 10_800),
    ] {
        let equation = Coefficients { eq1, eq2, eq3 };
        writeln!(
            out,
            "measured {} {raw} = {}",
            Equation(equation),
            Or(temperature::measure(equation, raw), "failed")
        )?;
    }
    Ok(())
}

pub fn run(out: &mut Out) -> io::Result<()> {
    floats(out)?;
    equations(out)
}
