// The bench: reads commands from standard input, one a line, and writes one line for each, in order. Answers are written before more is read. Of an unfinished line
// only so much is kept as decides its answer, so memory does not grow. A read or a write that fails is reported on standard error, and ends the bench.
#![tactic(auto)]

mod window;

use window::Window;

fn main(rt: HostRuntime) {
    let mut window = Window::new();
    let mut out = [0; lines::ROOM];
    // The device that start time 0 and codes 0 give.
    let mut desk = desk::fresh(0, 0, 0).desk;
    // A loop has to end to be accepted. The input could be endless, so we stop after 2^64 - 1 rounds, which no run reaches.
    for _ in 0..u64::MAX {
        match window.step(&rt, &mut desk, &mut out) {
            Ok(true) => {}
            Ok(false) => return,
            Err(failure) => {
                let _ = eprintln!(&rt; "bench: {failure}");
                return;
            }
        }
    }
}
