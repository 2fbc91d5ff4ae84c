// A desk, and whether its state is whole. That is tested once for all lines of a block: a command never changes it, and a start gives a whole state.
ghost use Rattle.std.specs.Prelude.{◌≡◌};
ghost use Rattle.state.specs.State.{whole_b};

use crate::Desk;
use commands::{Command, Echo, Entry, Reply};
use state::Tested;

#[derive(Clone, Copy)]
pub struct TestedDesk {
    pub desk: Desk,
    pub sound: bool,
    ghost known: { sound ≡ whole_b desk.state },
}

impl TestedDesk {
    ghost use Rattle.panel.specs.Panel.{start_of};
    ghost use Rattle.steps.specs.Step.{with_state, step};
    ghost use Rattle.desk.specs.Desk.{world_in, entered};

    pub fn of(desk: Desk) -> TestedDesk
        ensures { result.desk ≡ desk }
    {
        TestedDesk {
            desk,
            sound: state::whole(desk.state),
        }
    }

    // A start replaces the state. A refused one does too.
    #[tactic(auto, using(panel::proofs::Laws::start_whole))]
    fn start(&mut self, time: u64, supcode: u32, custcode: u32) -> Reply
        ensures world { world_in self.new.desk ≡ with_state (world_in self.old.desk) (start_of time supcode custcode).state }
        ensures reply { result ≡ (start_of time supcode custcode).reply }
    {
        let answer = panel::start(time, supcode, custcode);
        self.desk.state = answer.state;
        self.sound = true;
        answer.reply
    }

    // A command does its step. The stores are lent where they stand.
    #[tactic(auto, using(device::proofs::Ways::turn_is_step, steps::proofs::Keeps::step_keeps), unfolding(device::specs::Plan::seen_of, device::specs::Plan::turn_of, device::specs::Plan::answer_in))]
    fn turn(&mut self, command: Command) -> Reply
        ensures world { world_in self.new.desk ≡ (step command (world_in self.old.desk)).0 }
        ensures reply { result ≡ (step command (world_in self.old.desk)).1 }
    {
        let desk = &mut self.desk;
        let tested = Tested {
            state: desk.state,
            sound: self.sound,
        };
        let seen = device::seen(tested, command, &desk.archive, &desk.log, &desk.audit);
        let answer = device::answer(
            tested,
            command,
            seen,
            &mut desk.archive,
            &mut desk.log,
            &mut desk.audit,
        );
        desk.state = answer.state;
        answer.reply
    }

    // One line. What a start and a command need stands in functions of their own, so that a line pays for the answer that it gets and for no other.
    #[tactic(auto, unfolding(crate::specs::Desk::entered))]
    pub fn put(&mut self, entry: Entry) -> Echo
        ensures world { world_in self.new.desk ≡ (entered entry (world_in self.old.desk)).0 }
        ensures echo { result ≡ (entered entry (world_in self.old.desk)).1 }
    {
        match entry {
            Entry::Nothing => Echo::Nothing,
            Entry::Unknown => Echo::Unknown,
            Entry::Start {
                time,
                supcode,
                custcode,
            } => Echo::Said(self.start(time, supcode, custcode)),
            Entry::Put(command) => Echo::Said(self.turn(command)),
            Entry::Parse(parsed) => Echo::Parse(parsed),
        }
    }
}
