// Asks the rules some hundreds of questions and prints each with its answer. The file stdout beside it is what
// tools/vectors.py works out by other means.
#![tactic(auto)]

mod amounts;
mod factors;
mod measures;
mod messages;
mod months;
mod pulses;
mod stores;
mod table;
mod taken;
mod totals;

use std::io;
use std::io::{BufWriter, Write};

fn main(rt: HostRuntime) -> io::Result<()> {
    let mut out = BufWriter::new(rt.alloc(), rt.stdout())?;
    months::run(&mut out)?;
    factors::run(&mut out)?;
    amounts::run(&mut out)?;
    totals::run(&mut out)?;
    measures::run(&mut out)?;
    taken::run(&mut out)?;
    table::run(&mut out)?;
    stores::run(&mut out)?;
    pulses::run(&mut out)?;
    messages::run(&mut out)?;
    out.flush()
}
