// The corrector's state: one struct, handed in by value and handed back. What no session holds is the core; each door has its session beside it.
#![tactic(auto)]

pub mod faults;

ghost use Rattle.std.specs.Prelude.{◌≡◌, not, ◌||◌, get_or, set};
ghost use Rattle.state.specs.State.{blank_cell, no_session, nothing_counted, no_alarm, shut_locks, fresh_core, fresh, cell_b, cells_b, session_b, counters_b, totals_b, latched_b, stores_b, measured_b, core_b, whole_b, tested, with_core};
ghost use Rattle.ground.specs.Below.{all_below};
ghost use Rattle.settings.specs.Settings.{setting_count, fits_b};

pub use faults::Fault;

// Main, disturbed and total at measurement conditions (Vm, VmD, VmT), and the same three at base conditions (Vb, VbD, VbT). The totals are kept because
// the display board asks for them every second.
#[derive(Clone, Copy, PartialEq, Eq)]
pub struct Counters {
    pub vm: units::Litres,
    pub vmd: units::Litres,
    pub vmt: units::Litres,
    pub vb: units::BaseUnits,
    pub vbd: units::BaseUnits,
    pub vbt: units::BaseUnits,
}

// One flag for each alarm: pressure, temperature, K.
#[derive(Clone, Copy, PartialEq, Eq)]
pub struct Alarms {
    pub p: bool,
    pub t: bool,
    pub k: bool,
}

// Which of the three locks stand open, and the codes of locks 2 and 3.
#[derive(Clone, Copy, PartialEq, Eq)]
pub struct Locks {
    pub cal: bool,
    pub sup: bool,
    pub cust: bool,
    pub supcode: u32,
    pub custcode: u32,
}

// What a session knows of one setting: the value staged, if there is one; whether it was read; whether it was put in force through the other door
// after that.
// Stays: (a) fixed memory. With an `Option<Value>` a cell takes 32 bytes and not 24, and the state is copied at every command; theorems of `runs` name the fields.
#[derive(Clone, Copy)]
pub struct Cell {
    pub value: settings::Value,
    pub staged: bool,
    pub read: bool,
    pub overtaken: bool,
}

// Stays: (a) a session that is not live may have something staged, and then the state is not whole (`session_b`); an `Option` could not say that.
#[derive(Clone, Copy)]
pub struct Session {
    pub live: bool,
    pub cells: [Cell; settings::COUNT],
}

// What a cycle measures. No other command changes it.
#[derive(Clone, Copy, PartialEq, Eq)]
pub struct Measured {
    pub time: u64,
    pub month: u64,
    pub counters: Counters,
    pub alarms: Alarms,
}

// What is kept of the three stores.
#[derive(Clone, Copy, PartialEq, Eq)]
pub struct Stores {
    pub archive: ring::Ring,
    pub log: ring::Book,
    pub audit: ring::Book,
}

// All that is no session.
#[derive(Clone, Copy)]
pub struct Core {
    pub measured: Measured,
    pub latches: Alarms,
    pub locks: Locks,
    pub settings: [settings::Setting; settings::COUNT],
    pub outputs: [outputs::Output; outputs::COUNT],
    pub stores: Stores,
}

// Door 1 is the keypad, door 2 the optical port.
#[derive(Clone, Copy)]
pub struct State {
    pub core: Core,
    pub keypad: Session,
    pub port: Session,
}

// A state, and whether it is whole. That is tested once, by `Tested::of`, for all that is then asked of the state.
#[derive(Clone, Copy)]
pub struct Tested {
    pub state: State,
    pub sound: bool,
}

// What one moment shows: time, counters with their totals, alarms, latches and locks.
#[derive(Clone, Copy, PartialEq, Eq)]
pub struct Moment {
    pub time: u64,
    pub counters: Counters,
    pub alarms: Alarms,
    pub latches: Alarms,
    pub cal: bool,
    pub sup: bool,
    pub cust: bool,
}

// ---- a fresh device

const BLANK: Cell = Cell {
    staged: false,
    value: settings::Value::Whole(0),
    read: false,
    overtaken: false,
};

pub fn cell_at(a: [Cell; settings::COUNT], k: usize) -> Cell
    ensures { result ≡ get_or a k blank_cell }
{
    ground::at(&a, k, BLANK)
}

pub fn cell_put(mut a: [Cell; settings::COUNT], k: usize, x: Cell) -> [Cell; settings::COUNT]
    ensures { result ≡ set a k x }
{
    ground::put(&mut a, k, x);
    a
}

#[tactic(auto, unfolding(crate::specs::State::no_session))]
pub fn no_session() -> Session
    ensures { result ≡ no_session }
{
    Session {
        live: false,
        cells: [BLANK; settings::COUNT],
    }
}

impl Counters {
    #[tactic(auto, unfolding(crate::specs::State::nothing_counted))]
    fn nothing() -> Counters
        ensures { result ≡ nothing_counted }
    {
        Counters {
            vm: units::Litres(0),
            vmd: units::Litres(0),
            vmt: units::Litres(0),
            vb: units::BaseUnits(0),
            vbd: units::BaseUnits(0),
            vbt: units::BaseUnits(0),
        }
    }

    #[tactic(auto, unfolding(crate::specs::State::counters_b))]
    fn are_in_range(self) -> bool
        ensures { result ≡ counters_b self }
    {
        units::litres_ok(self.vm)
            && units::litres_ok(self.vmd)
            && units::base_ok(self.vb)
            && units::base_ok(self.vbd)
    }

    // The totals are kept, so they may be wrong.
    #[tactic(auto, unfolding(crate::specs::State::totals_b))]
    fn have_right_totals(self) -> bool
        ensures { result ≡ totals_b self }
    {
        self.vmt == units::add_litres(self.vm, self.vmd)
            && self.vbt == units::add_base(self.vb, self.vbd)
    }
}

impl Alarms {
    #[tactic(auto, unfolding(crate::specs::State::no_alarm))]
    fn none() -> Alarms
        ensures { result ≡ no_alarm }
    {
        Alarms {
            p: false,
            t: false,
            k: false,
        }
    }

    #[tactic(auto, unfolding(crate::specs::State::latched_b))]
    fn are_latched_in(self, latches: Alarms) -> bool
        ensures { result ≡ latched_b self latches }
    {
        (!self.p || latches.p) && (!self.t || latches.t) && (!self.k || latches.k)
    }
}

impl Locks {
    #[tactic(auto, unfolding(crate::specs::State::shut_locks))]
    fn shut(supcode: u32, custcode: u32) -> Locks
        ensures { result ≡ shut_locks supcode custcode }
    {
        Locks {
            cal: false,
            sup: false,
            cust: false,
            supcode,
            custcode,
        }
    }
}

#[tactic(auto, unfolding(crate::specs::State::fresh_core, ring::specs::Ring::ring_after, ring::specs::Ring::book_after))]
fn fresh_core(time: u64, locks: Locks) -> Core
    ensures { result ≡ fresh_core time locks }
{
    let empty = ring::Ring { held: 0, next: 0 };
    let book = ring::Book {
        ring: empty,
        number: 0,
    };
    Core {
        measured: Measured {
            time,
            month: calendar::month_of(time),
            counters: Counters::nothing(),
            alarms: Alarms::none(),
        },
        latches: Alarms::none(),
        locks,
        settings: settings::factory_settings(),
        outputs: outputs::fresh_outputs(),
        stores: Stores {
            archive: empty,
            log: book,
            audit: book,
        },
    }
}

#[tactic(auto, unfolding(crate::specs::State::fresh))]
pub fn fresh_state(time: u64, supcode: u32, custcode: u32) -> State
    ensures { result ≡ fresh time supcode custcode }
{
    State {
        core: fresh_core(time, Locks::shut(supcode, custcode)),
        keypad: no_session(),
        port: no_session(),
    }
}

// ---- when a state is whole

impl Stores {
    #[tactic(auto, unfolding(crate::specs::State::stores_b))]
    fn are_whole(self) -> bool
        ensures { result ≡ stores_b self }
    {
        self.archive.is_whole(ring::ARCHIVE_LINES)
            && self.log.is_whole(ring::LOG_LINES, ring::LOG_STEP)
            && self.audit.is_whole(ring::AUDIT_LINES, ring::AUDIT_STEP)
    }
}

impl Cell {
    // Of the setting at place k. `live` says whether a session is open. In most cells nothing is staged, so the table is seldom looked at.
    #[tactic(auto, unfolding(crate::specs::State::cell_b))]
    fn is_whole(self, live: bool, k: usize) -> bool
        ensures { result ≡ cell_b live k self }
    {
        (!self.staged || settings::setting_fits(k, self.value))
            && (!self.overtaken || self.read)
            && (!(self.staged || self.read) || live)
    }
}

impl Session {
    fn is_whole(self) -> bool
        ensures { result ≡ session_b self }
    {
        self.cells
            .iter()
            .enumerate()
            .all(|(k, c)| c.is_whole(self.live, k))
    }
}

impl Measured {
    #[tactic(auto, unfolding(crate::specs::State::measured_b))]
    fn is_whole(self) -> bool
        ensures { result ≡ measured_b self }
    {
        self.time < calendar::END_OF_TIME
            && self.counters.are_in_range()
            && self.counters.have_right_totals()
            && calendar::month_holds(self.month, self.time)
    }
}

impl Core {
    #[tactic(auto, unfolding(crate::specs::State::core_b))]
    fn is_whole(self) -> bool
        ensures { result ≡ core_b self }
    {
        self.measured.is_whole()
            && settings::settings_fit(self.settings)
            && settings::pairs_ordered(self.settings)
            && self.measured.alarms.are_latched_in(self.latches)
            && outputs::outputs_ok(self.outputs, self.settings)
            && self.stores.are_whole()
    }
}

#[tactic(auto, unfolding(crate::specs::State::whole_b))]
pub fn whole(s: State) -> bool
    ensures { result ≡ whole_b s }
{
    s.core.is_whole() && s.keypad.is_whole() && s.port.is_whole()
}

impl Tested {
    #[tactic(auto, unfolding(crate::specs::State::tested))]
    pub fn of(state: State) -> Tested
        ensures { result ≡ tested state }
    {
        Tested {
            state,
            sound: whole(state),
        }
    }
}

// ---- another core

#[tactic(auto, unfolding(crate::specs::State::with_core))]
pub fn with_core(s: State, core: Core) -> State
    ensures { result ≡ with_core s core }
{
    State { core, ..s }
}
