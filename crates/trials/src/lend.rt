// One command over stores of any length, for a caller that holds its stores by value. The first lines of each array are lent for the command, and the arrays come
// back beside the answer. Each array has room for one line more than its store should have.
ghost use Rattle.std.specs.Prelude.{◌≡◌};
ghost use Rattle.trials.specs.Lend.{lent_of};

use books::{ArchiveLine, AuditLine, LogLine};
use commands::{Answer, Command};
use state::{State, Tested};

pub const ARCHIVE: usize = ring::ARCHIVE_LINES as usize + 1;

pub const LOG: usize = ring::LOG_LINES as usize + 1;

pub const AUDIT: usize = ring::AUDIT_LINES as usize + 1;

// How many lines of each store are lent.
#[derive(Clone, Copy)]
pub struct Lines {
    pub months: usize,
    pub events: usize,
    pub changes: usize,
}

impl Lines {
    // What each store should have.
    pub const EXACT: Lines = Lines {
        months: ring::ARCHIVE_LINES as usize,
        events: ring::LOG_LINES as usize,
        changes: ring::AUDIT_LINES as usize,
    };
}

#[derive(Clone, Copy)]
pub struct Lent {
    pub answer: Answer,
    pub archive: [ArchiveLine; ARCHIVE],
    pub log: [LogLine; LOG],
    pub audit: [AuditLine; AUDIT],
}

// If a number is larger than its array, the whole array is lent.
#[tactic(auto, using(crate::proofs::Laws::lent_back), unfolding(crate::specs::Lend::the_lent, state::specs::State::tested))]
pub fn put(
    s: State,
    c: Command,
    mut archive: [ArchiveLine; ARCHIVE],
    mut log: [LogLine; LOG],
    mut audit: [AuditLine; AUDIT],
    lines: Lines,
) -> Lent
    ensures { result ≡ lent_of s c archive log audit lines.months lines.events lines.changes }
{
    let m = lines.months.min(archive.len());
    let e = lines.events.min(log.len());
    let h = lines.changes.min(audit.len());
    let t = Tested::of(s);
    let seen = device::seen(t, c, &archive[..m], &log[..e], &audit[..h]);
    let answer = device::answer(
        t,
        c,
        seen,
        &mut archive[..m],
        &mut log[..e],
        &mut audit[..h],
    );
    Lent {
        answer,
        archive,
        log,
        audit,
    }
}
