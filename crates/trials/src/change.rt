// A state with one part changed.
use crate::base;
use outputs::{Account, Output};
use ring::{Book, Ring};
use settings::Value;
use settings::table::{CHOICE_1, K_F, P_MAX, WEIGHT_1};
use state::{Alarms, Cell, Counters, Locks, Session, State};

pub fn time(mut s: State, time: u64, month: u64) -> State {
    s.core.measured.time = time;
    s.core.measured.month = month;
    s
}

pub fn counters(mut s: State, c: Counters) -> State {
    s.core.measured.counters = c;
    s
}

pub fn alarms(mut s: State, present: Alarms, latched: Alarms) -> State {
    s.core.measured.alarms = present;
    s.core.latches = latched;
    s
}

pub fn locks(mut s: State, locks: Locks) -> State {
    s.core.locks = locks;
    s
}

pub fn archive(mut s: State, r: Ring) -> State {
    s.core.stores.archive = r;
    s
}

pub fn log(mut s: State, b: Book) -> State {
    s.core.stores.log = b;
    s
}

pub fn audit(mut s: State, b: Book) -> State {
    s.core.stores.audit = b;
    s
}

pub fn setting(mut s: State, place: usize, v: Value) -> State {
    s.core.settings = base::with_setting(s.core.settings, place, v);
    s
}

pub fn outputs(mut s: State, all: [Output; outputs::COUNT]) -> State {
    s.core.outputs = all;
    s
}

// Another choice, weight and account of one output. It is named by its place, from 0; what waits there and what was lost stay.
pub fn output(mut s: State, k: usize, choice: i64, weight: i64, account: u64) -> State {
    if k < outputs::COUNT {
        s.core.settings[CHOICE_1 + k].value = Value::Whole(choice);
        s.core.settings[WEIGHT_1 + k].value = Value::Whole(weight);
        s.core.outputs[k].account = Account(account);
    }
    s
}

// With every output off, no account depends on a choice or a weight.
pub fn outputs_off(mut s: State) -> State {
    for k in 0..outputs::COUNT {
        s = output(s, k, 0, 100, 0);
    }
    s
}

pub fn session(s: State, door: u64, x: Session) -> State {
    if door == 1 {
        State { keypad: x, ..s }
    } else {
        State { port: x, ..s }
    }
}

pub fn cell(s: State, door: u64, place: usize, c: Cell) -> State {
    let x = if door == 1 { s.keypad } else { s.port };
    session(s, door, base::with_cell(x, place, c))
}

// The session at the keypad has staged this value of this setting, and nothing else.
pub fn staged_alone(s: State, place: usize, v: Value) -> State {
    session(
        s,
        1,
        base::with_cell(staging::begun_session(), place, base::staged(v)),
    )
}

// Not whole: the month is not that of the time.
pub fn not_whole(s: State) -> State {
    time(s, base::TIME, 39)
}

pub fn shut(s: State) -> State {
    locks(s, base::locks(false, false, false))
}

// K.F, which door 1 has read, has been put in force through the other door since.
pub fn stale(s: State) -> State {
    cell(s, 1, K_F, base::seen(true, true))
}

// pMax staged below pMin.
pub fn crossed(s: State) -> State {
    cell(s, 1, P_MAX, base::staged(Value::Whole(80_000)))
}
