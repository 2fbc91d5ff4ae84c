// The pulse outputs: what waits, what is lost and how that is seen, and what a new choice or weight drops.
use crate::page::Grouped;
use notes::codes::PULSES_LOST;
use outputs::{COUNT, MOST_TICK, MOST_WAITING};
use print::Out;
use std::io;
use std::io::Write;

const FIRST_LINE: u64 = PULSES_LOST + 1;

const LAST_LINE: u64 = PULSES_LOST + COUNT as u64;

fn waiting(out: &mut Out) -> io::Result<()> {
    writeln!(
        out,
        "Each of the {COUNT} outputs adds what its counter gains to its account, and gives a pulse for each whole weight in it. Pulses wait until a tick"
    )?;
    writeln!(
        out,
        "takes them, at most {} of each output at a time. At most {} wait at an output. What comes above that is lost: the output's lost",
        Grouped(MOST_TICK),
        Grouped(MOST_WAITING)
    )
}

fn lost(out: &mut Out) -> io::Result<()> {
    writeln!(
        out,
        "counter has it, and the logbook has one line for each cycle in which it happened, {FIRST_LINE} to {LAST_LINE} for outputs 1 to {COUNT}.\n"
    )
}

fn remedies(out: &mut Out) -> io::Result<()> {
    writeln!(
        out,
        "After such a line, see that the boiler house's reader runs and that its cable is sound. Let it read the outputs more often, or set a larger"
    )?;
    writeln!(
        out,
        "weight. Lost pulses do not come back. The report of the outputs says how many they were; the counters have the gas all the same.\n"
    )
}

fn changes(out: &mut Out) -> io::Result<()> {
    writeln!(
        out,
        "A commit that puts another choice or weight of an output in force drops what was in its account, which is less than a pulse. What waits and"
    )?;
    writeln!(
        out,
        "what was lost stay, also where the output is switched off. The same value put in force again drops nothing."
    )
}

pub fn run(out: &mut Out) -> io::Result<()> {
    writeln!(out, "## The pulse outputs\n")?;
    waiting(out)?;
    lost(out)?;
    remedies(out)?;
    changes(out)
}
