// The settings, the pairs and the locks, row by row as the device has them.
use crate::page::Signed;
use print::{Bits, Out, YesNo};
use settings::Value;
use settings::table::{CLEAR, LOCKS, Lock, PAIRS, Range, lock_of, pair_of, row_of};
use state::faults::Fault;
use std::fmt::Display;
use std::io::Write;
use std::{fmt, io};

#[derive(Clone, Copy)]
struct Kind(Option<Range>);

impl Display for Kind {
    fn fmt<W: fmt::Write>(&self, f: &mut fmt::Formatter<W>) -> fmt::Result {
        match self.0 {
            Some(Range { lowest, highest }) => {
                write!(
                    f,
                    "whole number | {} to {}",
                    Signed(lowest),
                    Signed(highest)
                )
            }
            None => write!(f, "float | any finite"),
        }
    }
}

// A float has its decimal beside its bits.
#[derive(Clone, Copy)]
struct Factory(Value);

impl Display for Factory {
    fn fmt<W: fmt::Write>(&self, f: &mut fmt::Formatter<W>) -> fmt::Result {
        match self.0 {
            Value::Whole(n) => write!(f, "{}", Signed(n)),
            Value::Coefficient(x) => write!(f, "{} = {x}", Bits(x)),
        }
    }
}

// A lock's number and its name.
#[derive(Clone, Copy)]
struct Named(Lock);

impl Display for Named {
    fn fmt<W: fmt::Write>(&self, f: &mut fmt::Formatter<W>) -> fmt::Result {
        write!(f, "{} {}", self.0.number, self.0.name)
    }
}

fn every_setting(out: &mut Out) -> io::Result<()> {
    for k in 0..settings::COUNT {
        let row = row_of(k);
        writeln!(
            out,
            "| {} | {} | {} | {} | {} | {} |",
            row.number,
            row.name,
            row.unit,
            Kind(row.range),
            Factory(row.factory),
            Named(lock_of(row.lock))
        )?;
    }
    Ok(())
}

// The names of each pair's settings with words between them, and words between the pairs.
#[derive(Clone, Copy)]
pub struct Pairs {
    pub between: &'static str,
    pub joined: &'static str,
}

impl Display for Pairs {
    fn fmt<W: fmt::Write>(&self, f: &mut fmt::Formatter<W>) -> fmt::Result {
        for i in 0..PAIRS {
            let pair = pair_of(i);
            if 0 < i {
                f.write_str(self.joined)?;
            }
            write!(
                f,
                "{}{}{}",
                row_of(pair.low).name,
                self.between,
                row_of(pair.high).name
            )?;
        }
        Ok(())
    }
}

// Which of the three locks give the right that a lock stands for.
#[derive(Clone, Copy)]
struct GivenBy(Lock);

impl Display for GivenBy {
    fn fmt<W: fmt::Write>(&self, f: &mut fmt::Formatter<W>) -> fmt::Result {
        write!(
            f,
            "{} | {} | {}",
            YesNo(self.0.cal),
            YesNo(self.0.sup),
            YesNo(self.0.cust)
        )
    }
}

fn rights(out: &mut Out) -> io::Result<()> {
    writeln!(out, "## The rights\n")?;
    writeln!(
        out,
        "Find the setting's lock in the table above, then its row here. Any one of the locks with a yes is enough, if it is open at the commit. A commit needs"
    )?;
    writeln!(
        out,
        "this for every setting that it puts in force. Clear has its own row, and asks when it is given.\n"
    )?;
    writeln!(out, "| For | Lock 1 | Lock 2 | Lock 3 |\n|---|---|---|---|")?;
    for n in 1..=LOCKS {
        let lock = lock_of(n);
        writeln!(out, "| {} | {} |", Named(lock), GivenBy(lock))?;
    }
    writeln!(out, "| Clear | {} |", GivenBy(lock_of(CLEAR)))
}

pub fn run(out: &mut Out) -> io::Result<()> {
    writeln!(out, "## The {} settings\n", settings::COUNT)?;
    writeln!(
        out,
        "| No. | Setting | Unit | Kind | Range, ends included | Factory | Lock |\n|--:|---|---|---|---|---|---|"
    )?;
    every_setting(out)?;
    writeln!(
        out,
        "\nA float is written as the 16 hexadecimal digits of its bits. After a commit {}, else {}.\n",
        Pairs {
            between: " is at most ",
            joined: " and ",
        },
        Fault::PairCrossed.number()
    )?;
    rights(out)
}
