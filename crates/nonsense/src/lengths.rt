// Stores of a wrong length, each in turn: one line short, one line long, and empty.
use crate::lists::all;
use print::Out;
use state::State;
use std::io;
use std::io::Write;
use trials::base::one_session;
use trials::change;
use trials::lend::Lines;

// Months, events and changes.
const LENT: [(usize, usize, usize); 9] = [
    (14, 250, 200),
    (16, 250, 200),
    (0, 250, 200),
    (15, 249, 200),
    (15, 251, 200),
    (15, 0, 200),
    (15, 250, 199),
    (15, 250, 201),
    (15, 250, 0),
];

fn every_length(out: &mut Out, label: &str, s: State) -> io::Result<()> {
    for (months, events, changes) in LENT {
        writeln!(out, "{label} with stores of {months} {events} {changes}")?;
        let lines = Lines {
            months,
            events,
            changes,
        };
        all(out, s, lines)?;
    }
    Ok(())
}

pub fn run(out: &mut Out) -> io::Result<()> {
    let s = one_session();
    every_length(out, "whole", s)?;
    every_length(out, "month 39", change::not_whole(s))?;
    every_length(out, "no lock open", change::shut(s))?;
    every_length(out, "stale", change::stale(s))?;
    every_length(out, "pMax staged below pMin", change::crossed(s))
}
