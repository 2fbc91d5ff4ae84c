// The stores that are lent. Each line says its own place, so that a line written, moved or wiped is noticed.
use crate::same::Same;
use books::{ArchiveLine, AuditLine, LogLine};
use settings::Value;
use units::{BaseUnits, Litres};

// A line of a store.
pub trait Line: Same + Copy {
    // The line that stands at a place of the lent array.
    fn at(place: u64) -> Self;
}

impl Line for ArchiveLine {
    fn at(place: u64) -> ArchiveLine {
        ArchiveLine {
            month: place,
            vm: Litres(1),
            vmd: Litres(2),
            vb: BaseUnits(3),
            vbd: BaseUnits(4),
        }
    }
}

impl Line for LogLine {
    fn at(place: u64) -> LogLine {
        LogLine {
            number: 7,
            time: place,
            code: 9,
        }
    }
}

impl Line for AuditLine {
    fn at(place: u64) -> AuditLine {
        AuditLine {
            number: 7,
            time: place,
            door: 5,
            setting: 6,
            old: Value::Whole(-8),
            new: Value::Coefficient(0.5),
        }
    }
}

pub fn lines<T: Line, const N: usize>() -> [T; N] {
    std::array::from_fn(|k| T::at(k as u64))
}

// Whether each line stands as it was lent.
pub fn kept<T: Line>(a: &[T]) -> bool {
    a.iter()
        .enumerate()
        .all(|(k, line)| line.same(&T::at(k as u64)))
}
