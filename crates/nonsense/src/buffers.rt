// Readouts into lent buffers: none of its bytes, one short of the message, the message itself, and more. All bytes are printed, and so is what stands behind the part
// that was lent.
use print::{Hex, Out};
use state::State;
use std::io;
use std::io::Write;
use trials::base::{counters, one_session};
use trials::change;

const ROOM: usize = 200;

// The first n bytes of the buffer are lent, or all of them.
fn lent(out: &mut Out, s: State, n: usize) -> io::Result<()> {
    let mut buffer = [0x55u8; ROOM];
    let reply = panel::readout(s, &mut buffer[..n.min(ROOM)]);
    writeln!(out, "  readout into {n}: {} {}", reply.number, Hex(&buffer))
}

fn every_length(out: &mut Out, label: &str, s: State) -> io::Result<()> {
    writeln!(out, "{label}, into a buffer")?;
    for n in [0, 1, 155, 156, 157, ROOM] {
        lent(out, s, n)?;
    }
    Ok(())
}

pub fn run(out: &mut Out) -> io::Result<()> {
    let s = one_session();
    every_length(out, "whole", s)?;
    every_length(
        out,
        "no litre yet",
        change::counters(s, counters([0, 0, 0, 99_999, 199_999, 299_998])),
    )?;
    every_length(out, "month 39", change::not_whole(s))
}
