// The whole state from which the trials start. Every command can be accepted in it.
use outputs::{Account, Output};
use ring::{Book, Ring};
use settings::table::{CHOICE_1, CHOICE_2, CHOICE_4, CUSTOMER, K_F, P_F, WEIGHT_2, WEIGHT_4};
use settings::{Setting, Value};
use state::{Alarms, Cell, Core, Counters, Locks, Measured, Session, State, Stores};
use units::{BaseUnits, Litres};

const SUPPLIERS_CODE: u32 = 1234;

const CUSTOMERS_CODE: u32 = 98_765;

// In March 2003, which is month 38.
pub const TIME: u64 = 100_000_000;

const MONTH: u64 = 38;

// Vm, VmD, VmT, Vb, VbD and VbT.
pub fn counters([vm, vmd, vmt, vb, vbd, vbt]: [u64; 6]) -> Counters {
    Counters {
        vm: Litres(vm),
        vmd: Litres(vmd),
        vmt: Litres(vmt),
        vb: BaseUnits(vb),
        vbd: BaseUnits(vbd),
        vbt: BaseUnits(vbt),
    }
}

pub fn alarms(p: bool, t: bool, k: bool) -> Alarms {
    Alarms { p, t, k }
}

pub fn locks(cal: bool, sup: bool, cust: bool) -> Locks {
    Locks {
        cal,
        sup,
        cust,
        supcode: SUPPLIERS_CODE,
        custcode: CUSTOMERS_CODE,
    }
}

pub fn book(held: u64, next: u64, number: u16) -> Book {
    Book {
        ring: Ring { held, next },
        number,
    }
}

pub fn output(account: u64, waiting: u16, lost: u32) -> Output {
    Output {
        account: Account(account),
        waiting,
        lost,
    }
}

pub fn with_setting(
    a: [Setting; settings::COUNT],
    place: usize,
    value: Value,
) -> [Setting; settings::COUNT] {
    settings::setting_put(a, place, Setting { value })
}

// Output 1 follows VmT and output 2 VbT. Output 3 is off. Output 4 follows VmD.
fn settings_in_force() -> [Setting; settings::COUNT] {
    let mut settings = settings::factory_settings();
    settings[CHOICE_1].value = Value::Whole(3);
    settings[CHOICE_2].value = Value::Whole(6);
    settings[CHOICE_4].value = Value::Whole(2);
    settings[WEIGHT_2].value = Value::Whole(250);
    settings[WEIGHT_4].value = Value::Whole(1_000_000);
    settings
}

// The accounts of outputs 1 and 2 are one below their weights. The buffer of output 2 is full, and its lost counter at its highest. Output 3 still has what waited when it
// was switched off. No pulse waits at output 4.
fn outputs_in_use() -> [Output; outputs::COUNT] {
    [
        output(99, 7, 3),
        output(24_999_999, u16::MAX, u32::MAX),
        output(0, 2, 1),
        output(5, 0, 0),
    ]
}

// Both totals have rolled over. The pressure alarm is present; the temperature alarm is over but still latched. The archive and the logbook are full.
fn core() -> Core {
    Core {
        measured: Measured {
            time: TIME,
            month: MONTH,
            counters: counters([
                999_999_999_999,
                5_000,
                4_999,
                99_999_999_999_999_999,
                700,
                699,
            ]),
            alarms: alarms(true, false, false),
        },
        latches: alarms(true, true, false),
        locks: locks(true, false, false),
        settings: settings_in_force(),
        outputs: outputs_in_use(),
        stores: Stores {
            archive: Ring { held: 15, next: 3 },
            log: book(250, 7, 257),
            audit: book(12, 12, 12),
        },
    }
}

pub fn staged(value: Value) -> Cell {
    Cell {
        staged: true,
        value,
        read: false,
        overtaken: false,
    }
}

pub fn seen(read: bool, overtaken: bool) -> Cell {
    Cell {
        staged: false,
        value: Value::Whole(0),
        read,
        overtaken,
    }
}

pub fn with_cell(x: Session, place: usize, c: Cell) -> Session {
    Session {
        cells: state::cell_put(x.cells, place, c),
        ..x
    }
}

// It has read K.F and staged p.F.
fn keypad() -> Session {
    let x = with_cell(staging::begun_session(), K_F, seen(true, false));
    with_cell(x, P_F, staged(Value::Whole(150_000)))
}

// It has read the customer's number and staged it.
fn port() -> Session {
    let c = Cell {
        read: true,
        ..staged(Value::Whole(77))
    };
    with_cell(staging::begun_session(), CUSTOMER, c)
}

// A session at the keypad, none at the port.
pub fn one_session() -> State {
    State {
        core: core(),
        keypad: keypad(),
        port: state::no_session(),
    }
}

pub fn two_sessions() -> State {
    State {
        port: port(),
        ..one_session()
    }
}
