// The numbers of the fault card: when each is given, and what a fitter does about it.
use crate::page::Grouped;
use crate::table::Pairs;
use calendar::END_OF_TIME;
use outputs::MOST_TICK;
use print::Out;
use reader::Unread;
use ring::{ARCHIVE_LINES, AUDIT_LINES, LOG_LINES};
use settings::table::LOCKS;
use state::faults::{DONE, Fault};
use std::fmt::Display;
use std::io::Write;
use std::{fmt, io};
use units::{BASE_ROLLOVER, MOST_PULSES};

// How long a message is, in bytes.
const MESSAGE: Grouped = Grouped(message::SIZE as u64);

const CROSSED: Pairs = Pairs {
    between: " above ",
    joined: ", or ",
};

// In the order of their numbers.
const FAULTS: [Fault; 16] = [
    Fault::NotWhole,
    Fault::SessionOpen,
    Fault::NoSuch,
    Fault::NoSession,
    Fault::TimeBack,
    Fault::TimePastEnd,
    Fault::ManyPulses,
    Fault::WrongCode,
    Fault::BadValue,
    Fault::LockMissing,
    Fault::Stale,
    Fault::PairCrossed,
    Fault::NotHeld,
    Fault::TooLarge,
    Fault::LongTick,
    Fault::ShortBuffer,
];

// The sizes of the stores.
#[derive(Clone, Copy)]
struct Sizes;

impl Display for Sizes {
    fn fmt<W: fmt::Write>(&self, f: &mut fmt::Formatter<W>) -> fmt::Result {
        write!(
            f,
            "{} archive, {} logbook, {} audit lines",
            Grouped(ARCHIVE_LINES),
            Grouped(LOG_LINES),
            Grouped(AUDIT_LINES)
        )
    }
}

// When a fault is answered, and what a fitter does about it.
#[derive(Clone, Copy)]
struct Words(Fault);

impl Display for Words {
    fn fmt<W: fmt::Write>(&self, f: &mut fmt::Formatter<W>) -> fmt::Result {
        match self.0 {
            Fault::NotWhole => write!(
                f,
                "A store lent to the call has not its exact length ({Sizes}), or the state is not whole (a kept total VmT or VbT that is not main plus disturbed, for one) | Stop: the box's memory or the program that calls it is damaged. Change nothing, seal the box, call the workshop"
            ),
            Fault::SessionOpen => f.write_str(
                "Begin at a door with an open session | Go on in that session, or abandon it and begin again",
            ),
            Fault::NoSuch => write!(
                f,
                "Door not 1 (keypad) or 2 (optical port), setting not 1 to {}, lock not 1 to {LOCKS} | Look the number up on this card and give the command again",
                settings::COUNT
            ),
            Fault::NoSession => f.write_str(
                "Read, Write, Commit or Abandon at a door with no session | Begin first; what an ended session had read or staged is gone",
            ),
            Fault::TimeBack => f.write_str(
                "Cycle time before the last accepted time | Set the clock if it is slow; if the report's time is ahead of the true time, call the workshop",
            ),
            Fault::TimePastEnd => write!(
                f,
                "Cycle or start time of {} s or more (the end of 2099) | Set the clock. A refused start leaves a box at time 0 with codes 0: start it again",
                Grouped(END_OF_TIME)
            ),
            Fault::ManyPulses => write!(
                f,
                "More than {} pulses in one cycle | Look for bounce on the pulse line and for missed cycles. The cycle was not counted: note the meter's index",
                Grouped(MOST_PULSES)
            ),
            Fault::WrongCode => f.write_str(
                "Lock 2 or 3 opened with a wrong code, also if it is open already | Get the right code from its owner and open again; the lock stands as it stood",
            ),
            Fault::BadValue => f.write_str(
                "Value of the wrong kind or outside its range, or a float not finite | Take a value from the table below and write again; the session is still open",
            ),
            Fault::LockMissing => f.write_str(
                "A lock missing for a staged setting at Commit, or for Clear | Open the lock it needs (last table of this page). A commit's session has ended: begin, write and commit anew",
            ),
            Fault::Stale => f.write_str(
                "Stale commit: a setting read in this session was since put in force through the other door | Begin, read the settings again, work out your value again, write and commit anew",
            ),
            Fault::PairCrossed => write!(
                f,
                "{CROSSED}, as it would stand after the commit | Begin, read both ends of the pair, write a Min that is not above its Max, commit anew"
            ),
            Fault::NotHeld => write!(
                f,
                "The line asked for is not held (at most {Sizes}) | Ask for a lower line number; line 0 is the newest, and a fresh store holds none"
            ),
            Fault::TooLarge => write!(
                f,
                "A cycle's Vb amount of {} or more hundred-thousandths of a litre | No sound box can come to this: do as for 1",
                Grouped(BASE_ROLLOVER)
            ),
            Fault::LongTick => write!(
                f,
                "A tick that names more than {} pulses | Nothing was taken. The boiler house's reader asks for too much: let it ask for no more than that at a time, and more often",
                Grouped(MOST_TICK)
            ),
            Fault::ShortBuffer => write!(
                f,
                "A readout into a buffer of less than {MESSAGE} bytes | Nothing was written. The program that reads over the optical head lends too little: let it lend that much, and read out again"
            ),
        }
    }
}

// What the device answers.
fn of_the_device(out: &mut Out) -> io::Result<()> {
    writeln!(out, "| {DONE} | Done | Nothing |")?;
    for fault in FAULTS {
        writeln!(out, "| {} | {} |", fault.number(), Words(fault))?;
    }
    Ok(())
}

// What the reader of messages says.
fn of_the_reader(out: &mut Out) -> io::Result<()> {
    writeln!(
        out,
        "| {} | Reading a captured readout back: the bytes, the last one aside, are not a message of {MESSAGE} bytes with the six lines in their order and nothing else | No values were taken. Compare the text with the readout byte by byte, also the line ends, or capture it again |",
        Unread::NotAMessage.number()
    )?;
    writeln!(
        out,
        "| {} | Reading a captured readout back: the form is right, and the check character is wrong | No values were taken. A digit or the check character was changed on the way: read the box out again |",
        Unread::WrongCheck.number()
    )
}

pub fn run(out: &mut Out) -> io::Result<()> {
    writeln!(out, "## Numbers 0 to {}\n", Unread::WrongCheck.number())?;
    writeln!(out, "| No. | Given when | What to do |\n|--:|---|---|")?;
    of_the_device(out)?;
    of_the_reader(out)?;
    writeln!(
        out,
        "\nWhere several apply, 1 comes first, then 3, then 2 or 4, then the rest in rising number. A refusal gives no value and changes"
    )?;
    writeln!(
        out,
        "nothing; but a commit refused with 10, 11 or 12 also ends its session, and what that had read or staged is gone. {} and {} come from the office's reader alone, never from the box.",
        Unread::NotAMessage.number(),
        Unread::WrongCheck.number()
    )
}
