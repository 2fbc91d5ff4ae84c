// Prints docs/FAULT-CARD.md: the numbers that the device answers, its archive, its pulse outputs, its readout and its settings. Limits, sizes, and the rows of settings, pairs and locks are the device's own. So a change
// of the device changes what is printed, and the gate refuses the committed page.
#![tactic(auto)]

mod archive;
mod faults;
mod page;
mod pulses;
mod readout;
mod table;

use std::io;
use std::io::{BufWriter, Write};

fn main(rt: HostRuntime) -> io::Result<()> {
    let mut out = BufWriter::new(rt.alloc(), rt.stdout())?;
    writeln!(out, "# Hnchakorim: fault card and settings\n")?;
    writeln!(
        out,
        "Printed by the program `card`, with numbers, limits and sizes from the device's own constants, and settings, pairs and locks from its own rows; not edited by hand.\n"
    )?;
    faults::run(&mut out)?;
    writeln!(out)?;
    archive::run(&mut out)?;
    writeln!(out)?;
    pulses::run(&mut out)?;
    writeln!(out)?;
    readout::run(&mut out)?;
    writeln!(out)?;
    table::run(&mut out)?;
    out.flush()
}
