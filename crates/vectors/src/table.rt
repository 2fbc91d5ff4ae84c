// The settings: which values fit, the factory values, the rights, and the pairs in order.
use print::{Out, SettingValue, YesNo};
use settings::table::{LOCKS, P_MAX, P_MIN, Range, Row, T_MAX, T_MIN, lock_of, row_of};
use settings::{Setting, Value};
use std::io;
use std::io::Write;

// There is no lock 0, and none after the last.
fn locks(out: &mut Out) -> io::Result<()> {
    for n in 0..=LOCKS + 1 {
        let lock = lock_of(n);
        writeln!(
            out,
            "lock {n} = {} {} {} {} {}",
            lock.number,
            lock.name,
            YesNo(lock.cal),
            YesNo(lock.sup),
            YesNo(lock.cust)
        )?;
    }
    Ok(())
}

// What a row says of itself: number, name, unit, lock.
fn row(out: &mut Out, number: usize, r: Row) -> io::Result<()> {
    writeln!(
        out,
        "row {number} = {} {}; {}; {}",
        r.number, r.name, r.unit, r.lock
    )
}

// A value that does not fit stands in brackets.
fn asked(out: &mut Out, k: usize, value: Value) -> io::Result<()> {
    if settings::setting_fits(k, value) {
        write!(out, " {}", SettingValue(value))
    } else {
        write!(out, " ({})", SettingValue(value))
    }
}

// Both ends of a range and one past each, between the ends of what a number can be. A coefficient is of the wrong kind.
fn whole_numbers(out: &mut Out, k: usize, range: Range) -> io::Result<()> {
    for value in [
        Value::Whole(i64::MIN),
        Value::Whole(range.lowest.saturating_sub(1)),
        Value::Whole(range.lowest),
        Value::Whole(range.highest),
        Value::Whole(range.highest.saturating_add(1)),
        Value::Whole(i64::MAX),
        Value::Coefficient(0.0),
        Value::Coefficient(1.0),
    ] {
        asked(out, k, value)?;
    }
    Ok(())
}

// Any finite float fits. A whole number is of the wrong kind.
fn coefficients(out: &mut Out, k: usize) -> io::Result<()> {
    for value in [
        Value::Coefficient(0.0),
        Value::Coefficient(-0.0),
        Value::Coefficient(1.0),
        Value::Coefficient(f64::MAX),
        Value::Coefficient(f64::MIN),
        Value::Coefficient(5e-324),
        Value::Coefficient(-5e-324),
        Value::Coefficient(f64::INFINITY),
        Value::Coefficient(f64::NEG_INFINITY),
        Value::Coefficient(f64::NAN),
        Value::Whole(0),
        Value::Whole(1),
    ] {
        asked(out, k, value)?;
    }
    Ok(())
}

fn fits(out: &mut Out, k: usize, r: Row) -> io::Result<()> {
    match r.range {
        Some(range) => whole_numbers(out, k, range),
        None => coefficients(out, k),
    }
}

// With each set of open locks: none, the customer's, the supplier's, and so on.
fn rights(out: &mut Out, k: usize) -> io::Result<()> {
    for cal in [false, true] {
        for sup in [false, true] {
            for cust in [false, true] {
                let right = settings::right_for(k, cal, sup, cust);
                write!(out, " {}", YesNo(right))?;
            }
        }
    }
    Ok(())
}

fn setting(out: &mut Out, k: usize) -> io::Result<()> {
    let number = k.saturating_add(1);
    let r = row_of(k);
    row(out, number, r)?;
    write!(out, "fits {number} =")?;
    fits(out, k, r)?;
    let factory = settings::factory(k).value;
    writeln!(out, "\nfactory {number} = {}", SettingValue(factory))?;
    write!(out, "rights {number} =")?;
    rights(out, k)?;
    writeln!(out)
}

// After the last row comes what is asked of a setting that does not exist.
fn every_setting(out: &mut Out) -> io::Result<()> {
    for k in 0..=settings::COUNT {
        setting(out, k)?;
    }
    Ok(())
}

// A setting of a whole number.
pub fn whole(n: i64) -> Setting {
    Setting {
        value: Value::Whole(n),
    }
}

// One below what the row of a whole number allows.
fn one_below(k: usize) -> i64 {
    match row_of(k).range {
        Some(range) => range.lowest.saturating_sub(1),
        None => 0,
    }
}

fn pairs(out: &mut Out) -> io::Result<()> {
    for (p_min, p_max, t_min, t_max) in [
        (90_000, 700_000, -2_000, 6_000),
        // H12
        (90_000, 80_000, -2_000, 6_000),
        (80_000, 80_000, -2_000, 6_000),
        (90_000, 89_999, -2_000, 6_000),
        (90_000, 700_000, 6_001, 6_000),
        (90_000, 700_000, 6_000, 6_000),
        (90_000, 700_000, -2_000, -2_001),
        // In order, but one below its range.
        (one_below(P_MIN), 700_000, -2_000, 6_000),
    ] {
        let mut values = settings::factory_settings();
        values[P_MIN] = whole(p_min);
        values[P_MAX] = whole(p_max);
        values[T_MIN] = whole(t_min);
        values[T_MAX] = whole(t_max);
        writeln!(
            out,
            "pairs {p_min} {p_max} {t_min} {t_max} = {} {}",
            YesNo(settings::pairs_ordered(values)),
            YesNo(settings::settings_fit(values))
        )?;
    }
    Ok(())
}

pub fn run(out: &mut Out) -> io::Result<()> {
    locks(out)?;
    every_setting(out)?;
    pairs(out)
}
