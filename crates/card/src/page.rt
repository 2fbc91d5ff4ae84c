// Numbers as they look on a printed card.
use std::fmt;
use std::fmt::Display;

// What the last digit of each group of three stands for, from the highest on.
const UNITS: [u64; 7] = [
    1_000_000_000_000_000_000,
    1_000_000_000_000_000,
    1_000_000_000_000,
    1_000_000_000,
    1_000_000,
    1_000,
    1,
];

// With a comma between thousands.
#[derive(Clone, Copy)]
pub struct Grouped(pub u64);

impl Display for Grouped {
    fn fmt<W: fmt::Write>(&self, f: &mut fmt::Formatter<W>) -> fmt::Result {
        for unit in UNITS {
            let groups = self.0 / unit;
            if 1_000 <= groups {
                write!(f, ",{:03}", groups % 1_000)?;
            } else if 0 < groups || unit == 1 {
                write!(f, "{groups}")?;
            }
        }
        Ok(())
    }
}

#[derive(Clone, Copy)]
pub struct Signed(pub i64);

impl Display for Signed {
    fn fmt<W: fmt::Write>(&self, f: &mut fmt::Formatter<W>) -> fmt::Result {
        let sign = if self.0 < 0 { "-" } else { "" };
        write!(f, "{sign}{}", Grouped(self.0.unsigned_abs()))
    }
}

// An hour of the day, from the seconds since midnight: 06:00.
#[derive(Clone, Copy)]
pub struct Hour(pub u64);

impl Display for Hour {
    fn fmt<W: fmt::Write>(&self, f: &mut fmt::Formatter<W>) -> fmt::Result {
        write!(f, "{:02}:{:02}", self.0 / 3_600, self.0 / 60 % 60)
    }
}
