// The two units: the pulse value, the amounts of a cycle, and sums under the rollover.
use print::{Or, Out};
use std::fmt::Display;
use std::io::Write;
use std::{fmt, io};
use units::{Amounts, BaseUnits, Litres};

fn pulses(out: &mut Out) -> io::Result<()> {
    for code in [0, 1, 2, 3, 4, 5, u64::MAX] {
        writeln!(out, "pulse {code} = {}", units::pulse_litres(code))?;
    }
    Ok(())
}

// Litres and base units.
#[derive(Clone, Copy)]
struct Both(Amounts);

impl Display for Both {
    fn fmt<W: fmt::Write>(&self, f: &mut fmt::Formatter<W>) -> fmt::Result {
        write!(f, "{} {}", self.0.litres.0, self.0.base.0)
    }
}

fn amounts(out: &mut Out) -> io::Result<()> {
    for (n, code, factor) in [
        (0, 1, 100_000),
        (1, 0, 1),
        (10, 1, 186_355),
        (600, 4, 38_264_831),
        (600, 0, 2_624),
        (7, 2, 99_999),
        (599, 3, 123_457),
        (600, 4, 1_666_666_666),
        (600, 4, 1_666_666_667),
        (1, 0, 9_999_999_999_999_999),
        (1, 0, 10_000_000_000_000_000),
        (0, 4, u64::MAX),
        (1, 0, u64::MAX),
        (601, 1, 1),
        (1, 5, 1),
    ] {
        let both = units::amounts_of(n, code, factor).map(Both);
        writeln!(
            out,
            "amounts {n} {code} {factor} = {}",
            Or(both, "too-large")
        )?;
    }
    Ok(())
}

fn litres(out: &mut Out) -> io::Result<()> {
    for (a, b) in [
        (999_999_999_900, 100),
        (999_999_999_900, 99),
        (999_999_999_999, 999_999_999_999),
        (0, 0),
        (1_000_000_000_000, 1),
        (u64::MAX, u64::MAX),
    ] {
        let sum = units::add_litres(Litres(a), Litres(b));
        writeln!(out, "litres {a} {b} = {}", sum.0)?;
    }
    Ok(())
}

fn base_units(out: &mut Out) -> io::Result<()> {
    for (a, b) in [
        (99_999_999_999_999_999, 1),
        (99_999_999_999_999_998, 1),
        (99_999_999_999_999_999, 99_999_999_999_999_999),
        (0, 186_355_000),
        (100_000_000_000_000_000, 1),
        (u64::MAX, u64::MAX),
    ] {
        let sum = units::add_base(BaseUnits(a), BaseUnits(b));
        writeln!(out, "base-units {a} {b} = {}", sum.0)?;
    }
    Ok(())
}

pub fn run(out: &mut Out) -> io::Result<()> {
    pulses(out)?;
    amounts(out)?;
    // H7
    litres(out)?;
    base_units(out)
}
