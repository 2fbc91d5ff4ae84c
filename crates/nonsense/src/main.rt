// Puts nonsense to every public function of the device and prints the answers: first states that break one clause of "whole", then what the rows of
// the settings allow and refuse, then stores of a wrong length, then commands refused for several reasons at once, then readouts into buffers of every kind of length,
// then captured messages. The file stdout beside it is what tools/nonsense.py works out from the rules.
#![tactic(auto)]

mod accounts;
mod buffers;
mod captured;
mod clauses;
mod lengths;
mod lists;
mod order;
mod rows;
mod values;

use std::io;
use std::io::{BufWriter, Write};

fn main(rt: HostRuntime) -> io::Result<()> {
    let mut out = BufWriter::new(rt.alloc(), rt.stdout())?;
    clauses::run(&mut out)?;
    accounts::run(&mut out)?;
    values::run(&mut out)?;
    rows::run(&mut out)?;
    lengths::run(&mut out)?;
    order::run(&mut out)?;
    buffers::run(&mut out)?;
    captured::run(&mut out)?;
    out.flush()
}
