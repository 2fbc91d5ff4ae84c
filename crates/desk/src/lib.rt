// A desk: the device and its three stores in one plain value. Lines are put to it a block at a time. The stores are lent in place to each command, so nothing is
// copied between commands. A caller of this crate lends nothing.
#![tactic(auto)]

mod tested;

ghost use Rattle.std.specs.Prelude.{◌≡◌};
ghost use Rattle.desk.specs.Desk.{started, no_input, served};

use books::{ArchiveLine, AuditLine, LogLine};
use commands::{Echo, Entry};
use state::State;
use tested::TestedDesk;

// The sizes of the stores, as lengths of arrays.

pub const ARCHIVE: usize = ring::ARCHIVE_LINES as usize;

pub const LOG: usize = ring::LOG_LINES as usize;

pub const AUDIT: usize = ring::AUDIT_LINES as usize;

// How many lines a block may have.
pub const BLOCK: usize = 256;

#[derive(Clone, Copy)]
pub struct Desk {
    pub state: State,
    pub archive: [ArchiveLine; ARCHIVE],
    pub log: [LogLine; LOG],
    pub audit: [AuditLine; AUDIT],
}

// The answer to a start. If it was refused, the desk is the one that start time 0 and codes 0 give.
// Stays: a number with a desk and not a `Result`, since a refused start has a desk too (`started`).
#[derive(Clone, Copy)]
pub struct Started {
    pub number: u64,
    pub desk: Desk,
}

// The desk after a block, and what is said to each of its lines.
#[derive(Clone, Copy)]
pub struct Served {
    pub desk: Desk,
    pub responses: [Echo; BLOCK],
}

// A start writes nothing into the stores: their lines are blank, and none is held.
#[tactic(auto, unfolding(crate::specs::Desk::started))]
pub fn fresh(time: u64, supcode: u32, custcode: u32) -> Started
    ensures { result ≡ started time supcode custcode }
{
    let answer = panel::start(time, supcode, custcode);
    Started {
        number: answer.reply.number,
        desk: Desk {
            state: answer.state,
            archive: [books::no_archive(); ARCHIVE],
            log: [books::no_log(); LOG],
            audit: [books::no_audit(); AUDIT],
        },
    }
}

// A line of a block that asks for nothing.
pub fn no_input() -> Entry
    ensures { result ≡ no_input }
{
    Entry::Nothing
}

// Puts the first `count` lines of a block to the desk, one after another.
#[tactic(auto, unfolding(crate::specs::Desk::served, crate::specs::Desk::world_after, crate::specs::Desk::echoes))]
pub fn serve(d: Desk, inputs: [Entry; BLOCK], count: usize) -> Served
    ensures { result ≡ served d inputs count }
{
    let mut tested = TestedDesk::of(d);
    let mut responses = [Echo::Nothing; BLOCK];
    for (k, entry) in inputs[..count.min(BLOCK)].iter().enumerate() {
        responses[k] = tested.put(*entry);
    }
    Served {
        desk: tested.desk,
        responses,
    }
}
