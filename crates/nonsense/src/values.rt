// Every command on states with one setting, in force or staged at a door, that does not fit; and on states with a pair out of order. What does not fit comes from the
// rows of the table.
use crate::lists::every;
use crate::rows::BenchValue;
use print::Out;
use settings::Value;
use settings::table::{PAIRS, pair_of, row_of};
use std::io;
use std::io::Write;
use trials::base::{one_session, staged, two_sessions};
use trials::change;
use trials::change::outputs_off;

// The value in force, then staged at each door. In force it breaks no account, because the outputs are off.
fn broken(out: &mut Out, k: usize, v: Value) -> io::Result<()> {
    let number = row_of(k).number;
    writeln!(out, "setting {number} {}", BenchValue(v))?;
    every(out, change::setting(outputs_off(one_session()), k, v))?;
    for door in [1, 2] {
        writeln!(out, "staged {door} {number} {}", BenchValue(v))?;
        every(out, change::cell(two_sessions(), door, k, staged(v)))?;
    }
    Ok(())
}

// One below the row's range, one above it, and a value of the other kind; or what is not finite, and a value of the other kind.
fn setting(out: &mut Out, k: usize) -> io::Result<()> {
    if let Some(range) = row_of(k).range {
        broken(out, k, Value::Whole(range.lowest.saturating_sub(1)))?;
        broken(out, k, Value::Whole(range.highest.saturating_add(1)))?;
        broken(out, k, Value::Coefficient(1.0))
    } else {
        broken(out, k, Value::Coefficient(f64::INFINITY))?;
        broken(out, k, Value::Coefficient(f64::NEG_INFINITY))?;
        broken(out, k, Value::Coefficient(f64::NAN))?;
        broken(out, k, Value::Whole(0))
    }
}

// The two settings of a pair at these values.
fn pair(out: &mut Out, i: usize, m: i64, n: i64) -> io::Result<()> {
    let p = pair_of(i);
    writeln!(
        out,
        "pair {} {} {m} {n}",
        row_of(p.low).number,
        row_of(p.high).number
    )?;
    let s = change::setting(one_session(), p.low, Value::Whole(m));
    every(out, change::setting(s, p.high, Value::Whole(n)))
}

pub fn run(out: &mut Out) -> io::Result<()> {
    for k in 0..settings::COUNT {
        setting(out, k)?;
    }
    // The lower one at the upper one's factory value, which is in order; and one above that.
    for i in 0..PAIRS {
        let n = settings::whole_of(row_of(pair_of(i).high).factory);
        pair(out, i, n, n)?;
        pair(out, i, n.saturating_add(1), n)?;
    }
    Ok(())
}
