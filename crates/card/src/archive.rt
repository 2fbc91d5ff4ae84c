// The archive: when a line of it is written, and for which month.
use crate::page::{Grouped, Hour};
use print::Out;
use std::io;
use std::io::Write;

pub fn run(out: &mut Out) -> io::Result<()> {
    writeln!(out, "## The archive\n")?;
    writeln!(
        out,
        "The first accepted cycle of a new month writes the line of the month before it, and one for each month passed over, with the counters as they"
    )?;
    writeln!(
        out,
        "stood. The archive holds the last {} lines. Months are those of the supplier's invoice: a month begins at {} on its first day, winter time,",
        Grouped(ring::ARCHIVE_LINES),
        Hour(calendar::MONTHS_BEGIN_AT)
    )?;
    writeln!(
        out,
        "and ends when the next begins. They are numbered from January 2000, which is 0 and begins with the clock; January 2026 is 312."
    )
}
