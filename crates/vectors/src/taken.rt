// The three readings: what is taken, and whether the alarm is present.
use crate::measures::Equation;
use print::{Or, Out, YesNo};
use std::io;
use std::io::Write;
use temperature::Coefficients;

fn pressures(out: &mut Out) -> io::Result<()> {
    for (mode, lowest, highest, fixed, reading) in [
        // The first two are those of H5.
        (1, 90_000, 700_000, 101_325, Some(89_999)),
        (1, 90_000, 700_000, 101_325, Some(90_000)),
        (1, 90_000, 700_000, 101_325, Some(202_650)),
        (1, 90_000, 700_000, 101_325, Some(700_000)),
        (1, 90_000, 700_000, 101_325, Some(700_001)),
        (1, 90_000, 700_000, 101_325, None),
        (0, 90_000, 700_000, 101_325, None),
        (0, 90_000, 700_000, 101_325, Some(89_999)),
        (0, 90_000, 700_000, 101_325, Some(202_650)),
        (1, 10_000, 10_000_000, 500_000, Some(0)),
        (1, 10_000, 10_000_000, 500_000, Some(u64::MAX)),
        (1, 200_000, 200_000, 150_000, Some(200_000)),
    ] {
        let taken = readings::pressure_taken(mode, lowest, highest, fixed, reading);
        writeln!(
            out,
            "pressure {mode} {lowest} {highest} {fixed} {} = {} {}",
            Or(reading, "failed"),
            YesNo(taken.alarm),
            taken.value
        )?;
    }
    Ok(())
}

fn ks(out: &mut Out) -> io::Result<()> {
    for (mode, fixed, computed) in [
        (1, 10_000, Some(4_999)),
        (1, 10_000, Some(5_000)),
        (1, 10_000, Some(9_876)),
        (1, 10_000, Some(20_000)),
        (1, 10_000, Some(20_001)),
        (1, 12_345, None),
        (0, 12_345, None),
        (0, 12_345, Some(4_999)),
        (0, 12_345, Some(9_876)),
        (1, 12_345, Some(0)),
        (1, 12_345, Some(u64::MAX)),
    ] {
        let taken = readings::k_taken(mode, fixed, computed);
        writeln!(
            out,
            "k {mode} {fixed} {} = {} {}",
            Or(computed, "failed"),
            YesNo(taken.alarm),
            taken.value
        )?;
    }
    Ok(())
}

const FACTORY: Coefficients = Coefficients {
    eq1: -40.0,
    eq2: 0.0078125,
    eq3: 0.0,
};

// The equation has no value: an infinity less an infinity.
const ENDLESS: Coefficients = Coefficients {
    eq1: 0.0,
    eq2: f64::MAX,
    eq3: f64::MIN,
};

fn temperatures(out: &mut Out) -> io::Result<()> {
    for (mode, lowest, highest, fixed, equation, reading) in [
        (1, -2_000, 6_000, 1_500, FACTORY, Some(7_680)),
        (1, -2_000, 6_000, 1_500, FACTORY, Some(2_559)),
        (1, -2_000, 6_000, 1_500, FACTORY, Some(2_560)),
        (1, -2_000, 6_000, 1_500, FACTORY, Some(12_800)),
        (1, -2_000, 6_000, 1_500, FACTORY, Some(12_801)),
        (1, -2_000, 6_000, 1_500, FACTORY, Some(65_535)),
        (1, -2_000, 6_000, 1_500, FACTORY, None),
        (0, -2_000, 6_000, 1_500, FACTORY, None),
        (0, -2_000, 6_000, 1_500, FACTORY, Some(2_559)),
        (0, -2_000, 6_000, 1_500, FACTORY, Some(7_680)),
        (1, -10_000, 20_000, -300, FACTORY, Some(0)),
        (1, -10_000, 20_000, -300, FACTORY, Some(30_720)),
        (1, -10_000, 20_000, -300, FACTORY, Some(30_721)),
        (1, -10_000, 20_000, -300, ENDLESS, Some(65_535)),
    ] {
        let taken = readings::temperature_taken(mode, lowest, highest, fixed, equation, reading);
        writeln!(
            out,
            "temperature {mode} {lowest} {highest} {fixed} {} {} = {} {}",
            Equation(equation),
            Or(reading, "failed"),
            YesNo(taken.alarm),
            taken.value
        )?;
    }
    Ok(())
}

fn kelvins(out: &mut Out) -> io::Result<()> {
    for t in [
        -10_001,
        -10_000,
        -1,
        0,
        2_000,
        20_000,
        20_001,
        i64::MIN,
        i64::MAX,
    ] {
        writeln!(out, "kelvin {t} = {}", readings::kelvin(t))?;
    }
    Ok(())
}

pub fn run(out: &mut Out) -> io::Result<()> {
    pressures(out)?;
    ks(out)?;
    temperatures(out)?;
    kelvins(out)
}
