// Every command on states with one output changed: its choice, its weight, and what is in its account. An account is whole as long as it is below its weight, in the unit of
// the counter that the output follows; that of an output that is off holds nothing. That at most 65,535 pulses wait and that the lost counter is below 2^32 cannot be broken:
// what waits is a u16, what was lost a u32. Output 2 of the state from which the trials start has both at their highest.
use crate::lists::every;
use print::Out;
use std::io;
use std::io::Write;
use trials::base::one_session;
use trials::change;

// An output by its place, from 0, with its choice, weight and account.
const CHANGED: [(u8, i64, i64, u64); 37] = [
    // Each output follows a counter in litres, then one at base conditions: an account one below the weight, and one at the weight. Then it is off: nothing in the account,
    // and the least that can be. The weights differ, so that the weight of another output is no stand-in.
    (0, 1, 60, 59),
    (0, 1, 60, 60),
    (0, 4, 60, 5_999_999),
    (0, 4, 60, 6_000_000),
    (0, 0, 60, 0),
    (0, 0, 60, 1),
    (1, 2, 70, 69),
    (1, 2, 70, 70),
    (1, 5, 70, 6_999_999),
    (1, 5, 70, 7_000_000),
    (1, 0, 70, 0),
    (1, 0, 70, 1),
    (2, 3, 80, 79),
    (2, 3, 80, 80),
    (2, 6, 80, 7_999_999),
    (2, 6, 80, 8_000_000),
    (2, 0, 80, 0),
    (2, 0, 80, 1),
    (3, 2, 90, 89),
    (3, 2, 90, 90),
    (3, 6, 90, 8_999_999),
    (3, 6, 90, 9_000_000),
    (3, 0, 90, 0),
    (3, 0, 90, 1),
    // The smallest weight and the largest.
    (0, 1, 1, 0),
    (0, 1, 1, 1),
    (1, 4, 1, 99_999),
    (1, 4, 1, 100_000),
    (2, 3, 1_000_000, 999_999),
    (2, 3, 1_000_000, 1_000_000),
    (3, 6, 1_000_000, 99_999_999_999),
    (3, 6, 1_000_000, 100_000_000_000),
    // What would be whole in the other unit, and what is; then the largest number.
    (0, 1, 100, 9_999_999),
    (1, 4, 100, 100),
    (2, 3, 100, u64::MAX),
    (3, 6, 100, u64::MAX),
    (0, 0, 100, u64::MAX),
];

pub fn run(out: &mut Out) -> io::Result<()> {
    for (k, choice, weight, account) in CHANGED {
        writeln!(
            out,
            "output {} {choice} {weight} {account}",
            u16::from(k) + 1
        )?;
        let s = change::output(one_session(), usize::from(k), choice, weight, account);
        every(out, s)?;
    }
    Ok(())
}
