// The numbers of the fault card. Where several apply, NotWhole comes first, then NoSuch, then SessionOpen or NoSession, then the rest in rising number.

ghost use Rattle.std.specs.Prelude.{◌≡◌};
ghost use Rattle.state.specs.Card.{number_of};

// The number of a command that is done.
pub const DONE: u64 = 0;

// What a command is refused for.
#[derive(Clone, Copy, PartialEq, Eq)]
pub enum Fault {
    // A store lent to the call has not its exact length, or the state is not whole.
    NotWhole,
    SessionOpen,
    // No such door, setting or lock.
    NoSuch,
    NoSession,
    // A cycle's time before the last accepted one.
    TimeBack,
    TimePastEnd,
    ManyPulses,
    WrongCode,
    // A value of the wrong kind, outside its range, or not finite.
    BadValue,
    LockMissing,
    Stale,
    // A Min above its Max.
    PairCrossed,
    NotHeld,
    // A cycle's Vb amount at or over the counter's rollover.
    TooLarge,
    // A tick that names more than 600.
    LongTick,
    // A buffer lent for a readout that is shorter than the message.
    ShortBuffer,
}

impl Fault {
    // The number on the fault card.
    #[tactic(auto, unfolding(crate::specs::Card::number_of))]
    pub fn number(self) -> u64
        ensures { result ≡ number_of self }
    {
        match self {
            Fault::NotWhole => 1,
            Fault::SessionOpen => 2,
            Fault::NoSuch => 3,
            Fault::NoSession => 4,
            Fault::TimeBack => 5,
            Fault::TimePastEnd => 6,
            Fault::ManyPulses => 7,
            Fault::WrongCode => 8,
            Fault::BadValue => 9,
            Fault::LockMissing => 10,
            Fault::Stale => 11,
            Fault::PairCrossed => 12,
            Fault::NotHeld => 13,
            Fault::TooLarge => 14,
            Fault::LongTick => 15,
            Fault::ShortBuffer => 16,
        }
    }
}
