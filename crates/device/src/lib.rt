// One command put to the device over lent stores: its answer, and the state after it. Only the state is copied. A store is passed on only to the commands that use
// it. The caller has tested the state.
#![tactic(auto)]

ghost use Rattle.std.specs.Prelude.{◌≡◌};
ghost use Rattle.steps.specs.Step.{called_by};
ghost use Rattle.device.specs.Plan.{world_of, reply_by, seen_of, turn_of, answer_in};

use books::{ArchiveLine, AuditLine, LogLine};
use commands::{Act, Answer, Command, Given, Question, Reply};
use state::Tested;

// ---- questions

fn reply_to(
    t: Tested,
    q: Question,
    archive: &[ArchiveLine],
    log: &[LogLine],
    audit: &[AuditLine],
) -> Reply
    ensures { result ≡ reply_by t.sound q (world_of t.state archive.now log.now audit.now) }
{
    match q {
        Question::Report => panel::report_by(t),
        Question::Outputs => panel::outputs_by(t),
        Question::Readout(room) => panel::readout_by(t, room),
        Question::Archive(i) => panel::archive_line_by(t, i, archive),
        Question::Log(i) => panel::log_line_by(t, i, log),
        Question::Audit(i) => doors::audit_line_by(t, i, audit),
        Question::Last(wanted) => panel::last_by(t, wanted, log),
    }
}

// The reply to a question. Any other command has its reply from `answer`.
#[tactic(auto, unfolding(crate::specs::Plan::seen_of, crate::specs::Plan::seen_by))]
pub fn seen(
    t: Tested,
    c: Command,
    archive: &[ArchiveLine],
    log: &[LogLine],
    audit: &[AuditLine],
) -> Reply
    ensures { result ≡ seen_of t.sound t.state c archive.now log.now audit.now }
{
    match c {
        Command::Ask(q) => reply_to(t, q, archive, log, audit),
        _ => Reply::done(Given::Nothing),
    }
}

// ---- any command

fn called_by(t: Tested, door: u64, act: Act) -> Answer
    ensures { result ≡ called_by t.sound t.state door act }
{
    match act {
        Act::Begin => doors::begin_by(t, door),
        Act::Read(setting) => doors::read_by(t, door, setting),
        Act::Write(setting, v) => doors::write_by(t, door, setting, v),
        Act::Abandon => doors::abandon_by(t, door),
    }
}

// One command. `reply` is what `seen` gave for it.
#[tactic(auto, unfolding(crate::specs::Plan::turn_of, crate::specs::Plan::turn_by, crate::specs::Plan::answer_in))]
pub fn answer(
    t: Tested,
    c: Command,
    reply: Reply,
    archive: &mut [ArchiveLine],
    log: &mut [LogLine],
    audit: &mut [AuditLine],
) -> Answer
    ensures { (result ≡ answer_in (turn_of t.sound t.state c reply archive.old log.old audit.old))
        × ((archive.new ≡ (turn_of t.sound t.state c reply archive.old log.old audit.old).0.archive)
        × ((log.new ≡ (turn_of t.sound t.state c reply archive.old log.old audit.old).0.log)
        × (audit.new ≡ (turn_of t.sound t.state c reply archive.old log.old audit.old).0.audit))) }
{
    match c {
        Command::Cycle(brought) => cycle::cycle_by(t, brought, archive, log),
        Command::Turn(turn) => panel::turn_by(t, turn, log),
        Command::Clear => panel::clear_by(t),
        Command::Tick(n) => panel::tick_by(t, n),
        Command::Ask(_) => Answer {
            reply,
            state: t.state,
        },
        Command::Call(door, act) => called_by(t, door, act),
        Command::Commit(door) => doors::commit_by(t, door, audit),
    }
}
