// The commands that are put to a state, in the bench's form.
use print::Out;
use state::State;
use std::io;
use trials::lend::Lines;
use trials::trial::each;

// Every command, with arguments that a whole state accepts.
const ACCEPTED: &str = "open 2 1234
shut 1
clear
report
log 0
archive 0
tick 5
outputs
readout 156
cycle 103000000 10 7680 202650 -
begin 2
abandon 1
read 1 2
write 1 15 w 1000
commit 1
audit 0
";

// From here on: refused because of the state, of the command, or of both.

const LOCKS_AND_LINES: &str = "open 0 1234
open 4 0
open 18446744073709551615 0
open 2 0
open 3 1234
shut 0
shut 4
log 250
log 18446744073709551615
archive 15
archive 18446744073709551615
audit 12
audit 18446744073709551615
";

// One second before the time of the state, well after it, and the first that is too late.
const CYCLES: &str = "cycle 99999999 10 7680 202650 -
cycle 103000000 600 7680 202650 -
cycle 3155760000 10 7680 202650 -
cycle 99999999 601 7680 202650 -
cycle 103000000 601 7680 202650 -
cycle 3155760000 601 7680 202650 -
cycle 99999999 18446744073709551615 7680 202650 -
cycle 103000000 18446744073709551615 7680 202650 -
cycle 18446744073709551615 18446744073709551615 7680 202650 -
";

// Nothing, the most that a tick may name, one more, and the largest number.
const TICKS: &str = "tick 0
tick 600
tick 601
tick 18446744073709551615
";

// No byte, one less than the message has, one more, and the most that the bench lends. The reader says the same of its bytes whatever the state is.
const READOUTS: &str = "readout 0
readout 155
readout 157
readout 200
parse 0203
";

const SESSIONS: &str = "begin 0
begin 1
begin 3
abandon 0
abandon 2
abandon 3
commit 0
commit 2
commit 3
read 0 1
read 3 1
read 1 0
read 1 30
read 3 30
read 2 30
read 2 1
read 1 22
read 1 29
read 2 29
";

// There is no setting 30. The values that do not fit are of the wrong kind or infinite, so that no row's range is told here: `rows` tries the ends of each.
const WRITES: &str = "write 0 1 w 1
write 3 11 w 1
write 1 30 w 1
write 1 0 w 1
write 2 30 w 1
write 2 1 w 1
write 2 11 w 1
write 1 1 c 3ff0000000000000
write 1 11 w 1
write 1 11 c 7ff0000000000000
write 1 30 c 7ff0000000000000
write 2 0 c 7ff0000000000000
write 3 30 c 7ff0000000000000
";

pub fn every(out: &mut Out, s: State) -> io::Result<()> {
    each(out, ACCEPTED.as_bytes(), s, Lines::EXACT)
}

pub fn all(out: &mut Out, s: State, lines: Lines) -> io::Result<()> {
    for list in [
        ACCEPTED,
        LOCKS_AND_LINES,
        CYCLES,
        TICKS,
        READOUTS,
        SESSIONS,
        WRITES,
    ] {
        each(out, list.as_bytes(), s, lines)?;
    }
    Ok(())
}
