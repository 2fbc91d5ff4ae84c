// Commands refused for several reasons at once: the number answered is that of the first reason.
use crate::lists::all;
use print::Out;
use settings::Value;
use settings::table::CP;
use state::State;
use std::io;
use std::io::Write;
use trials::base::{locks, one_session, two_sessions};
use trials::change;
use trials::change::{crossed, not_whole, shut, stale};
use trials::lend::Lines;
use trials::trial::each;

fn put(out: &mut Out, label: &str, s: State) -> io::Result<()> {
    writeln!(out, "{label}")?;
    all(out, s, Lines::EXACT)
}

const STARTS: &str = "start 0 5 6
start 3155759999 5 6
start 3155760000 5 6
start 18446744073709551615 5 6
";

// A refused start gives what a start at time 0 with codes 0 gives.
fn starts(out: &mut Out) -> io::Result<()> {
    writeln!(out, "started at 0 with codes 0")?;
    each(
        out,
        STARTS.as_bytes(),
        panel::start(0, 0, 0).state,
        Lines::EXACT,
    )
}

// No whole device counts 10^17 in one cycle of at most 600 pulses, so 14 comes only where the state is not whole.
fn one_reason(out: &mut Out) -> io::Result<()> {
    let s = one_session();
    put(out, "one session", s)?;
    put(out, "two sessions", two_sessions())?;
    put(
        out,
        "all locks open",
        change::locks(s, locks(true, true, true)),
    )?;
    put(
        out,
        "no pulse waits",
        change::outputs(s, outputs::fresh_outputs()),
    )?;
    put(out, "month 39", not_whole(s))?;
    put(out, "cp code 16", change::setting(s, CP, Value::Whole(16)))?;
    put(out, "time past the end", change::time(s, u64::MAX, 1_199))
}

fn reasons_to_refuse_a_commit(out: &mut Out, s: State) -> io::Result<()> {
    put(out, "no lock open", shut(s))?;
    put(out, "stale", stale(s))?;
    put(out, "crossed", crossed(s))?;
    put(out, "no lock open, stale", shut(stale(s)))?;
    put(out, "no lock open, crossed", shut(crossed(s)))?;
    put(out, "stale, crossed", stale(crossed(s)))?;
    put(out, "no lock open, stale, crossed", shut(stale(crossed(s))))
}

pub fn run(out: &mut Out) -> io::Result<()> {
    starts(out)?;
    one_reason(out)?;
    put(out, "two sessions, no lock open", shut(two_sessions()))?;
    writeln!(out, "with one session")?;
    reasons_to_refuse_a_commit(out, one_session())?;
    writeln!(out, "with month 39")?;
    reasons_to_refuse_a_commit(out, not_whole(one_session()))
}
