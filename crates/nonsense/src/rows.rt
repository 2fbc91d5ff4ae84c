// What is tried of each setting, from the rows of the table: writes of both ends of its range, of one past each and of the wrong kind; and a commit of this setting alone with
// each set of open locks.
use commands::{Act, Command};
use print::{Bits, Out, YesNo};
use settings::Value;
use settings::table::{Row, row_of};
use state::State;
use std::fmt::Display;
use std::io::Write;
use std::{fmt, io};
use trials::base::{locks, one_session};
use trials::change;
use trials::change::not_whole;
use trials::trial::put_exact;

// A value as the bench has it: w and a whole number, or c and the bits of a float.
#[derive(Clone, Copy)]
pub struct BenchValue(pub Value);

impl Display for BenchValue {
    fn fmt<W: fmt::Write>(&self, f: &mut fmt::Formatter<W>) -> fmt::Result {
        match self.0 {
            Value::Whole(n) => write!(f, "w {n}"),
            Value::Coefficient(x) => write!(f, "c {}", Bits(x)),
        }
    }
}

fn write(out: &mut Out, s: State, door: u64, number: u64, v: Value) -> io::Result<()> {
    let c = Command::Call(door, Act::Write(number, v));
    writeln!(
        out,
        "  write {door} {number} {}: {}",
        BenchValue(v),
        put_exact(s, c)
    )
}

fn writes(out: &mut Out, s: State, door: u64, r: Row) -> io::Result<()> {
    if let Some(range) = r.range {
        for v in [
            Value::Whole(range.lowest.saturating_sub(1)),
            Value::Whole(range.lowest),
            Value::Whole(range.highest),
            Value::Whole(range.highest.saturating_add(1)),
            Value::Coefficient(1.0),
        ] {
            write(out, s, door, r.number, v)?;
        }
    } else {
        for v in [
            Value::Coefficient(f64::MIN),
            Value::Coefficient(f64::MAX),
            Value::Coefficient(f64::INFINITY),
            Value::Coefficient(f64::NEG_INFINITY),
            Value::Coefficient(f64::NAN),
            Value::Whole(0),
        ] {
            write(out, s, door, r.number, v)?;
        }
    }
    Ok(())
}

fn every_write(out: &mut Out, s: State, door: u64) -> io::Result<()> {
    for k in 0..settings::COUNT {
        writes(out, s, door, row_of(k))?;
    }
    Ok(())
}

// The calibration lock, the supplier's and the customer's.
const EACH_SET: [(bool, bool, bool); 8] = [
    (false, false, false),
    (false, false, true),
    (false, true, false),
    (false, true, true),
    (true, false, false),
    (true, false, true),
    (true, true, false),
    (true, true, true),
];

// The factory value is staged, and the locks stand in each way.
fn commits(out: &mut Out, k: usize) -> io::Result<()> {
    let r = row_of(k);
    let s = change::staged_alone(one_session(), k, r.factory);
    for (cal, sup, cust) in EACH_SET {
        let open = change::locks(s, locks(cal, sup, cust));
        writeln!(
            out,
            "  commit of {} {} {} {}: {}",
            r.number,
            YesNo(cal),
            YesNo(sup),
            YesNo(cust),
            put_exact(open, Command::Commit(1))
        )?;
    }
    Ok(())
}

fn every_commit(out: &mut Out) -> io::Result<()> {
    for k in 0..settings::COUNT {
        commits(out, k)?;
    }
    Ok(())
}

pub fn run(out: &mut Out) -> io::Result<()> {
    writeln!(out, "each setting written")?;
    every_write(out, one_session(), 1)?;
    writeln!(out, "each setting written at a door with no session")?;
    every_write(out, one_session(), 2)?;
    writeln!(out, "each setting written, month 39")?;
    every_write(out, not_whole(one_session()), 1)?;
    writeln!(out, "each setting committed alone with these locks open")?;
    every_commit(out)
}
