// Every command on states that break one clause of "whole"; `values` does this for settings and staged values, `accounts` for the outputs. The states among them that are whole lie at the very
// ends of what is allowed.
use crate::lists::every;
use print::{Out, YesNo};
use ring::Ring;
use settings::Value;
use settings::table::row_of;
use state::{Alarms, Cell, State};
use std::fmt::Display;
use std::io::Write;
use std::{fmt, io};
use trials::base::{alarms, book, one_session, seen, staged, two_sessions};
use trials::{base, change};

fn standing(out: &mut Out) -> io::Result<()> {
    writeln!(out, "whole: one session")?;
    every(out, one_session())?;
    writeln!(out, "whole: two sessions")?;
    every(out, two_sessions())
}

// A time, and a month.
const TIMES: [(u64, u64); 24] = [
    // The last second that there is, and what lies beyond it; the first and the last second of a month, and the months beside it.
    (3_155_759_999, 1_199),
    (3_155_760_000, 1_199),
    (u64::MAX, 1_199),
    (99_813_600, 38),
    (99_813_599, 38),
    (102_491_999, 38),
    (102_492_000, 38),
    (base::TIME, 37),
    (base::TIME, 39),
    (base::TIME, u64::MAX),
    (3_155_759_999, 1_198),
    (3_155_759_999, 1_200),
    // Months begin at six. A month kept by midnight is wrong from midnight to six; in the first six hours of all the month is 0.
    (99_792_000, 38),
    (99_792_000, 37),
    (99_813_599, 37),
    (102_470_400, 39),
    (102_470_400, 38),
    (102_492_000, 39),
    (0, 0),
    (0, 1_199),
    (21_599, 0),
    (21_599, 1_199),
    (21_600, 0),
    (21_600, 1),
];

fn times(out: &mut Out) -> io::Result<()> {
    for (time, month) in TIMES {
        writeln!(out, "time {time} {month}")?;
        every(out, change::time(one_session(), time, month))?;
    }
    Ok(())
}

// The largest litres and base units that a counter shows, and one more.

const MOST_LITRES: u64 = 999_999_999_999;

const LITRES: u64 = 1_000_000_000_000;

const MOST_BASE: u64 = 99_999_999_999_999_999;

const BASE: u64 = 100_000_000_000_000_000;

// Vm, VmD, VmT, Vb, VbD and VbT.
const COUNTERS: [[u64; 6]; 27] = [
    // Each part at its highest, and past it. The totals are main plus disturbed under the rollover all the same.
    [
        MOST_LITRES,
        MOST_LITRES,
        999_999_999_998,
        MOST_BASE,
        MOST_BASE,
        99_999_999_999_999_998,
    ],
    [LITRES, 0, 0, 0, 0, 0],
    [0, LITRES, 0, 0, 0, 0],
    [0, 0, 0, BASE, 0, 0],
    [0, 0, 0, 0, BASE, 0],
    [u64::MAX, 0, 73_709_551_615, 0, 0, 0],
    [0, u64::MAX, 73_709_551_615, 0, 0, 0],
    [0, 0, 0, u64::MAX, 0, 46_744_073_709_551_615],
    [0, 0, 0, 0, u64::MAX, 46_744_073_709_551_615],
    // Totals that differ from main plus disturbed: by one either way, not rolled over, the main counter alone, 0, the largest number, the two exchanged, both wrong. The
    // right ones are 4,999 and 699.
    [MOST_LITRES, 5_000, 5_000, MOST_BASE, 700, 699],
    [MOST_LITRES, 5_000, 4_998, MOST_BASE, 700, 699],
    [MOST_LITRES, 5_000, 4_999, MOST_BASE, 700, 700],
    [MOST_LITRES, 5_000, 4_999, MOST_BASE, 700, 698],
    [MOST_LITRES, 5_000, 1_000_000_004_999, MOST_BASE, 700, 699],
    [
        MOST_LITRES,
        5_000,
        4_999,
        MOST_BASE,
        700,
        100_000_000_000_000_699,
    ],
    [MOST_LITRES, 5_000, MOST_LITRES, MOST_BASE, 700, 699],
    [MOST_LITRES, 5_000, 4_999, MOST_BASE, 700, MOST_BASE],
    [MOST_LITRES, 5_000, 0, MOST_BASE, 700, 699],
    [MOST_LITRES, 5_000, 4_999, MOST_BASE, 700, 0],
    [MOST_LITRES, 5_000, u64::MAX, MOST_BASE, 700, 699],
    [MOST_LITRES, 5_000, 4_999, MOST_BASE, 700, u64::MAX],
    [MOST_LITRES, 5_000, 699, MOST_BASE, 700, 4_999],
    [MOST_LITRES, 5_000, 5_000, MOST_BASE, 700, 700],
    // Totals that are just at their rollover.
    [600_000_000_000, 400_000_000_000, LITRES, 0, 0, 0],
    [600_000_000_000, 400_000_000_000, 0, 0, 0, 0],
    [
        0,
        0,
        0,
        60_000_000_000_000_000,
        40_000_000_000_000_000,
        BASE,
    ],
    [0, 0, 0, 60_000_000_000_000_000, 40_000_000_000_000_000, 0],
];

fn counters(out: &mut Out) -> io::Result<()> {
    for six in COUNTERS {
        let [vm, vmd, vmt, vb, vbd, vbt] = six;
        writeln!(out, "counters {vm} {vmd} {vmt} {vb} {vbd} {vbt}")?;
        every(out, change::counters(one_session(), base::counters(six)))?;
    }
    Ok(())
}

// Three alarms, or their latches.
#[derive(Clone, Copy)]
struct Shown(Alarms);

impl Display for Shown {
    fn fmt<W: fmt::Write>(&self, f: &mut fmt::Formatter<W>) -> fmt::Result {
        let Alarms { p, t, k } = self.0;
        write!(f, "{} {} {}", YesNo(p), YesNo(t), YesNo(k))
    }
}

fn latched(out: &mut Out, present: Alarms, latches: Alarms) -> io::Result<()> {
    writeln!(out, "alarms {} latches {}", Shown(present), Shown(latches))?;
    every(out, change::alarms(one_session(), present, latches))
}

fn latches(out: &mut Out) -> io::Result<()> {
    latched(out, alarms(true, true, true), alarms(true, true, true))?;
    latched(out, alarms(true, false, false), alarms(false, true, true))?;
    latched(out, alarms(false, true, false), alarms(true, false, true))?;
    latched(out, alarms(false, false, true), alarms(true, true, false))
}

// How many lines are held, and where the next goes.
const ARCHIVES: [(u64, u64); 8] = [
    (0, 0),
    (14, 14),
    (15, 14),
    (0, 1),
    (14, 0),
    (15, 15),
    (16, 0),
    (u64::MAX, 0),
];

fn archives(out: &mut Out) -> io::Result<()> {
    for (held, next) in ARCHIVES {
        writeln!(out, "archive {held} {next}")?;
        every(out, change::archive(one_session(), Ring { held, next }))?;
    }
    Ok(())
}

// The same, and the next line's number.

const LOGBOOKS: [(u64, u64, u16); 12] = [
    (0, 0, 0),
    (249, 249, 249),
    (250, 249, 65_535),
    (0, 1, 0),
    (249, 0, 249),
    (0, 0, 1),
    (249, 249, 250),
    (249, 249, 247),
    (250, 250, 250),
    (251, 0, 250),
    (250, 7, 256),
    (250, 0, 65_535),
];

const AUDIT_TRAILS: [(u64, u64, u16); 12] = [
    (0, 0, 0),
    (199, 199, 199),
    (200, 7, 65_535),
    (0, 1, 0),
    (199, 0, 199),
    (0, 0, 1),
    (199, 199, 207),
    (200, 200, 200),
    (201, 0, 200),
    (200, 7, 11),
    (200, 7, 206),
    (200, 0, 204),
];

fn books(out: &mut Out) -> io::Result<()> {
    for (held, next, number) in LOGBOOKS {
        writeln!(out, "logbook {held} {next} {number}")?;
        every(out, change::log(one_session(), book(held, next, number)))?;
    }
    for (held, next, number) in AUDIT_TRAILS {
        writeln!(out, "audit trail {held} {next} {number}")?;
        every(out, change::audit(one_session(), book(held, next, number)))?;
    }
    Ok(())
}

// What a session has staged or read of the setting at a place.
fn seen_at(out: &mut Out, label: &str, s: State, door: u64, k: usize, c: Cell) -> io::Result<()> {
    writeln!(out, "{label} {door} {}", row_of(k).number)?;
    every(out, change::cell(s, door, k, c))
}

// Marked as put in force through the other door, and not read.
fn overtaken(out: &mut Out, door: u64, k: usize) -> io::Result<()> {
    let c = seen(false, true);
    seen_at(out, "overtaken and not read", two_sessions(), door, k, c)
}

// Something staged or read though there is no session.
fn left_over(out: &mut Out, door: u64, k: usize) -> io::Result<()> {
    let s = change::session(two_sessions(), door, state::no_session());
    let one = staged(Value::Whole(1));
    seen_at(out, "staged with no session", s, door, k, one)?;
    seen_at(out, "read with no session", s, door, k, seen(true, false))
}

// At each door the first setting and the last.
const CELLS: [(u64, usize); 4] = [
    (1, 0),
    (1, settings::COUNT - 1),
    (2, 0),
    (2, settings::COUNT - 1),
];

fn sessions(out: &mut Out) -> io::Result<()> {
    for (door, k) in CELLS {
        overtaken(out, door, k)?;
    }
    for (door, k) in CELLS {
        left_over(out, door, k)?;
    }
    Ok(())
}

pub fn run(out: &mut Out) -> io::Result<()> {
    standing(out)?;
    times(out)?;
    counters(out)?;
    latches(out)?;
    archives(out)?;
    books(out)?;
    sessions(out)
}
