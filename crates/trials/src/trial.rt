// Trials of a state: commands in the bench's form, one a line, each put to the state over stores of which some lines are lent. Printed are the command, the number
// answered, what has become of the state and the stores, and whether a value was given.
use crate::lend::Lines;
use crate::same::Same;
use crate::{change, lend, stores};
use commands::{Answer, Command, Entry, Given};
use print::Out;
use state::State;
use state::faults::DONE;
use std::fmt::Display;
use std::io::Write;
use std::{fmt, io};
use text::words::LINE_FEED;

// What has become of the state and the stores. If only a session has ended, its door is named.
#[derive(Clone, Copy, PartialEq, Eq)]
pub enum Fate {
    Same,
    Ended(u64),
    Changed,
}

impl Fate {
    // Compares what came back with what went in; `kept` says whether the stores are as they were.
    fn of(before: State, after: State, kept: bool) -> Fate {
        let ended = |door| after.same(&change::session(before, door, state::no_session()));
        if !kept {
            Fate::Changed
        } else if after.same(&before) {
            Fate::Same
        } else if ended(1) {
            Fate::Ended(1)
        } else if ended(2) {
            Fate::Ended(2)
        } else {
            Fate::Changed
        }
    }
}

impl Display for Fate {
    fn fmt<W: fmt::Write>(&self, f: &mut fmt::Formatter<W>) -> fmt::Result {
        match self {
            Fate::Same => f.write_str("same"),
            Fate::Ended(door) => write!(f, "ended {door}"),
            Fate::Changed => f.write_str("changed"),
        }
    }
}

// What is said of a line: that it asks for nothing or for something unknown, or the number answered and what has become of the state. `gives` says that a value was given.
#[derive(Clone, Copy, PartialEq, Eq)]
pub enum Outcome {
    Nothing,
    Unknown,
    Answered {
        number: u64,
        fate: Fate,
        gives: bool,
    },
}

impl Outcome {
    fn of(before: State, answer: Answer, kept: bool) -> Outcome {
        Outcome::Answered {
            number: answer.reply.number,
            fate: Fate::of(before, answer.state, kept),
            gives: !matches!(answer.reply.given, Given::Nothing),
        }
    }
}

impl Display for Outcome {
    fn fmt<W: fmt::Write>(&self, f: &mut fmt::Formatter<W>) -> fmt::Result {
        match self {
            Outcome::Nothing => f.write_str("nothing"),
            Outcome::Unknown => f.write_str("unknown"),
            Outcome::Answered {
                number,
                fate,
                gives,
            } => write!(f, "{number} {fate}{}", if *gives { " value" } else { "" }),
        }
    }
}

// The stores are compared with all the lines of the arrays, including those that were not lent.
fn put(s: State, c: Command, lines: Lines) -> Outcome {
    let t = lend::put(
        s,
        c,
        stores::lines(),
        stores::lines(),
        stores::lines(),
        lines,
    );
    let kept = stores::kept(&t.archive) && stores::kept(&t.log) && stores::kept(&t.audit);
    Outcome::of(s, t.answer, kept)
}

// One command, over stores of their exact lengths.
pub fn put_exact(s: State, c: Command) -> Outcome {
    put(s, c, Lines::EXACT)
}

// A start is lent nothing, and replaces the state. The reader is lent no state.
fn outcome_of(s: State, e: Entry, lines: Lines) -> Outcome {
    match e {
        Entry::Nothing => Outcome::Nothing,
        Entry::Unknown => Outcome::Unknown,
        Entry::Start {
            time,
            supcode,
            custcode,
        } => Outcome::of(s, panel::start(time, supcode, custcode), true),
        Entry::Put(c) => put(s, c, lines),
        Entry::Parse(read) => Outcome::Answered {
            number: match read {
                Ok(_) => DONE,
                Err(number) => number,
            },
            fate: Fate::Same,
            gives: false,
        },
    }
}

// Every line of the list that has its line feed.
pub fn each(out: &mut Out, list: &[u8], s: State, lines: Lines) -> io::Result<()> {
    for part in list.split_inclusive(|b| *b == LINE_FEED) {
        if let Some(line) = part.strip_suffix(&[LINE_FEED]) {
            out.write_all(b"  ")?;
            out.write_all(line)?;
            writeln!(
                out,
                ": {}",
                outcome_of(s, text::entries::entry_of(line), lines)
            )?;
        }
    }
    Ok(())
}
