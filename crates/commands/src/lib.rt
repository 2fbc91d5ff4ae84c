// The commands of the device, in groups, and the answers to them. The same types serve throughout: a line of text is read into a command, the device is given it,
// and it is a step of a run.
#![tactic(auto)]

ghost use Rattle.std.specs.Prelude.{◌≡◌};
ghost use Rattle.state.specs.Card.{number_of};
ghost use Rattle.commands.specs.Answers.{plain, giving, answered};

use message::Values;
use state::{Fault, State};

// What a cycle brings: a time, a pulse count n, and three readings. The raw temperature and the pressure, in pascals, are None if the sensor failed; K, in
// ten-thousandths, is None if it was not computed.
#[derive(Clone, Copy, PartialEq, Eq)]
pub struct Brought {
    pub time: u64,
    pub n: u64,
    pub raw: Option<u16>,
    pub pressure: Option<u64>,
    pub k: Option<u64>,
}

// A lock opened with a code, or shut.
#[derive(Clone, Copy, PartialEq, Eq)]
pub enum LockTurn {
    Open(u64, u32),
    Shut(u64),
}

// A question changes nothing, whatever it answers. A readout says how many bytes are lent for its message. `Last` has the code of a logbook line.
#[derive(Clone, Copy, PartialEq, Eq)]
pub enum Question {
    Report,
    Outputs,
    Readout(u64),
    Archive(u64),
    Log(u64),
    Audit(u64),
    Last(u64),
}

// What may be asked of the session at a door. It changes nothing but that session.
#[derive(Clone, Copy)]
pub enum Act {
    Begin,
    Read(u64),
    Write(u64, settings::Value),
    Abandon,
}

#[derive(Clone, Copy)]
pub enum Command {
    Cycle(Brought),
    Turn(LockTurn),
    Clear,
    Tick(u64),
    Ask(Question),
    Call(u64, Act),
    Commit(u64),
}

// What a readout wrote: its six values, in litres. `room` is how many bytes were lent for the message.
#[derive(Clone, Copy)]
pub struct Readout {
    pub room: u64,
    pub values: Values,
}

// What the logbook says of a code: the newest line with it, if one is held, and how many lines were looked at.
#[derive(Clone, Copy, PartialEq, Eq)]
pub struct Last {
    pub line: Option<books::LogLine>,
    pub looked: u64,
}

// What is given beside the number: nothing if the command was refused or has nothing to give.
#[derive(Clone, Copy)]
pub enum Given {
    Nothing,
    Value(settings::Value),
    Report(state::Moment),
    Emitted([u16; outputs::COUNT]),
    Outputs([outputs::Shown; outputs::COUNT]),
    Readout(Readout),
    Archive(books::ArchiveLine),
    Log(books::LogLine),
    Audit(books::AuditLine),
    Last(Last),
}

// The number on the fault card, which is 0 for done, and what is given.
// Stays: a number and not a `Result`, since the number is what is printed and promised: `refused_exactly`, `in_table` and `printed` of `runs` speak of it.
#[derive(Clone, Copy)]
pub struct Reply {
    pub number: u64,
    pub given: Given,
}

// A reply, and the state after the command.
#[derive(Clone, Copy)]
pub struct Answer {
    pub reply: Reply,
    pub state: State,
}

// What a line of input asks for: nothing (it is empty or a comment), something unknown, a new device in the place of this one, a command, or that a message be read. The
// reader needs no device, so its answer stands here already: the values, or the number of the refusal.
// Stays: a number here and in `Echo`, as in `Reply`, since the number is what is printed, and the line is promised for any number.
#[derive(Clone, Copy)]
pub enum Entry {
    Nothing,
    Unknown,
    Start {
        time: u64,
        supcode: u32,
        custcode: u32,
    },
    Put(Command),
    Parse(Result<Values, u64>),
}

// What is said to a line.
#[derive(Clone, Copy)]
pub enum Echo {
    Nothing,
    Unknown,
    Said(Reply),
    Parse(Result<Values, u64>),
}

// ---- answers

// Stays: a number here and in the two functions below, since each promises its answer for any number; what refuses hands in a `Fault` (`Reply::refused`).
pub fn plain_reply(number: u64) -> Reply
    ensures { result ≡ plain number }
{
    Reply {
        number,
        given: Given::Nothing,
    }
}

// A refusal gives nothing.
#[tactic(auto, unfolding(crate::specs::Answers::giving))]
pub fn giving_reply(number: u64, given: Given) -> Reply
    ensures { result ≡ giving number given }
{
    if number == state::faults::DONE {
        Reply { number, given }
    } else {
        plain_reply(number)
    }
}

// A refusal leaves the state as it was.
#[tactic(auto, unfolding(crate::specs::Answers::answered))]
pub fn settled(number: u64, before: State, after: State) -> Answer
    ensures { result ≡ answered number before after }
{
    Answer {
        reply: plain_reply(number),
        state: if number == state::faults::DONE {
            after
        } else {
            before
        },
    }
}

impl Reply {
    pub fn done(given: Given) -> Reply
        ensures { result ≡ giving 0 given }
    {
        giving_reply(state::faults::DONE, given)
    }

    // Whatever there would have been to give.
    #[tactic(auto, unfolding(state::specs::Card::number_of))]
    pub fn refused(fault: Fault) -> Reply
        ensures number { result ≡ plain (number_of fault) }
        ensures nothing { (given : Given) → result ≡ giving (number_of fault) given }
    {
        plain_reply(fault.number())
    }
}

impl From<Result<Given, Fault>> for Reply {
    ghost use Rattle.commands.specs.Answers.{reply_of};

    ghost from_gives = { λ outcome reply. reply ≡ reply_of outcome };

    fn from(outcome: Result<Given, Fault>) -> Reply {
        match outcome {
            Ok(given) => Reply::done(given),
            Err(fault) => Reply::refused(fault),
        }
    }
}

impl Answer {
    pub fn done(given: Given, after: State) -> Answer
        ensures { result ≡ record { reply = giving 0 given; state = after } }
    {
        Answer {
            reply: Reply::done(given),
            state: after,
        }
    }

    // Whatever the state would have become.
    #[tactic(auto, unfolding(state::specs::Card::number_of))]
    pub fn refused(fault: Fault, before: State) -> Answer
        ensures state { result ≡ record { reply = plain (number_of fault); state = before } }
        ensures unchanged { (after : State) → result ≡ answered (number_of fault) before after }
    {
        Answer {
            reply: Reply::refused(fault),
            state: before,
        }
    }
}
