// The readout over the optical head: which address is which counter, and what is cut off.
use crate::page::Grouped;
use message::{VB, VBD, VBT, VM, VMD, VMT};
use print::Out;
use std::io;
use std::io::Write;

fn addresses(out: &mut Out) -> io::Result<()> {
    writeln!(out, "| Address | Counter |\n|---|---|")?;
    for (address, counter) in [
        (VB, "Vb, main, at base conditions"),
        (VBD, "VbD, disturbed, at base conditions"),
        (VBT, "VbT, their total"),
        (VM, "Vm, main, at measurement conditions"),
        (VMD, "VmD, disturbed, at measurement conditions"),
        (VMT, "VmT, their total"),
    ] {
        write!(out, "| ")?;
        out.write_all(&address)?;
        writeln!(out, " | {counter} |")?;
    }
    writeln!(out)
}

pub fn run(out: &mut Out) -> io::Result<()> {
    writeln!(out, "## The readout\n")?;
    writeln!(
        out,
        "A readout over the optical head is a message of {} bytes: one line for each of six counters, in cubic metres.\n",
        Grouped(message::SIZE as u64)
    )?;
    addresses(out)?;
    writeln!(
        out,
        "What comes after the third decimal is cut off and not rounded. So VbT may read 0.001 above what Vb and VbD read together: what was cut off of both can make"
    )?;
    writeln!(out, "a litre.\n")?;
    writeln!(
        out,
        "The office reads a captured message back into six values in litres: `./parse FILE`. Every byte has to be there as the box sent it, and none besides."
    )
}
