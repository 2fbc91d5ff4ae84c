// Puts one block of commands to a desk again and again, so that the device can be timed without its text. The first line of standard input is the number of passes;
// the block's commands follow. A pass is what the bench does with a block between reading its lines and writing its answers. Prints how many commands the last pass
// accepted.
#![tactic(auto)]

ghost use Rattle.std.specs.Prelude.{◌≤◌, length};

use commands::{Echo, Entry};
use desk::Desk;
use std::io;
use std::io::Read;
use text::numbers::number_of;

// A command is accepted if its number is 0.
fn is_accepted(echo: Echo) -> bool {
    matches!(echo, Echo::Said(reply) if reply.number == state::faults::DONE)
}

// How many of the block the last pass accepted.
fn run(mut desk: Desk, inputs: [Entry; desk::BLOCK], count: usize, passes: u64) -> usize {
    let mut found = 0;
    for _ in 0..passes {
        let served = desk::serve(desk, inputs, count);
        desk = served.desk;
        found = served
            .responses
            .iter()
            .take(count)
            .filter(|echo| is_accepted(**echo))
            .count();
    }
    found
}

fn timed(input: &[u8]) -> usize {
    let Some(n) = lines::line_end(input) else {
        return 0;
    };
    let asked = lines::inputs_in(&input[n + 1..]);
    run(
        desk::fresh(0, 0, 0).desk,
        asked.inputs,
        asked.count,
        number_of(&input[..n]).unwrap_or(0),
    )
}

// Reads until the buffer is full, the input ends or a read fails, and gives how many bytes are at its front.
fn read_full(rt: &HostRuntime, input: &mut [u8]) -> usize
    ensures { result ≤ length input.new }
{
    let mut held = 0;
    // Stays: a `while` that counts no index: each read says where the next one begins.
    while held < input.len() {
        match rt.stdin().read(&mut input[held..]) {
            Ok(0) | Err(_) => break,
            Ok(n) => held += n,
        }
    }
    held
}

fn main(rt: HostRuntime) -> io::Result<()> {
    let mut space = [0; 65536];
    let have = read_full(&rt, &mut space);
    let found = timed(&space[..have]);
    println!(rt; "{found}")
}
