// Whether two values are the same. What holds no float has its own `==`. Floats are compared bit by bit, and all NaNs count as the same: so `==` will not do for what
// holds one.
use books::{ArchiveLine, AuditLine, LogLine};
use settings::{Setting, Value};
use state::{Cell, Core, Session, State};

pub trait Same {
    fn same(&self, other: &Self) -> bool;
}

fn floats(x: f64, y: f64) -> bool {
    if x.is_nan() || y.is_nan() {
        x.is_nan() && y.is_nan()
    } else {
        x.to_bits() == y.to_bits()
    }
}

impl Same for Value {
    fn same(&self, other: &Value) -> bool {
        match (*self, *other) {
            (Value::Whole(m), Value::Whole(n)) => m == n,
            (Value::Coefficient(x), Value::Coefficient(y)) => floats(x, y),
            _ => false,
        }
    }
}

impl<T: Same, const N: usize> Same for [T; N] {
    fn same(&self, other: &[T; N]) -> bool {
        self.iter().zip(other).all(|(x, y)| x.same(y))
    }
}

impl Same for Setting {
    fn same(&self, other: &Setting) -> bool {
        self.value.same(&other.value)
    }
}

impl Same for Cell {
    fn same(&self, other: &Cell) -> bool {
        self.staged == other.staged
            && self.value.same(&other.value)
            && self.read == other.read
            && self.overtaken == other.overtaken
    }
}

impl Same for Session {
    fn same(&self, other: &Session) -> bool {
        self.live == other.live && self.cells.same(&other.cells)
    }
}

impl Same for Core {
    fn same(&self, other: &Core) -> bool {
        self.measured == other.measured
            && self.latches == other.latches
            && self.locks == other.locks
            && self.settings.same(&other.settings)
            && self.outputs == other.outputs
            && self.stores == other.stores
    }
}

impl Same for State {
    fn same(&self, other: &State) -> bool {
        self.core.same(&other.core)
            && self.keypad.same(&other.keypad)
            && self.port.same(&other.port)
    }
}

impl Same for ArchiveLine {
    fn same(&self, other: &ArchiveLine) -> bool {
        self == other
    }
}

impl Same for LogLine {
    fn same(&self, other: &LogLine) -> bool {
        self == other
    }
}

impl Same for AuditLine {
    fn same(&self, other: &AuditLine) -> bool {
        self.number == other.number
            && self.time == other.time
            && self.door == other.door
            && self.setting == other.setting
            && self.old.same(&other.old)
            && self.new.same(&other.new)
    }
}
