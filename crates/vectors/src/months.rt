// The calendar. Months begin at six, so each day is asked about at midnight, a second before six, and at six.
use print::{Out, YesNo};
use std::io;
use std::io::Write;

fn month(out: &mut Out, time: u64) -> io::Result<()> {
    writeln!(out, "month {time} = {}", calendar::month_of(time))
}

// A day is named by its midnight.
fn days(out: &mut Out) -> io::Result<()> {
    for midnight in [
        // 2000-02-01, as in H8
        2_678_400,
        // 2000-02-29
        5_097_600,
        // 2000-03-01
        5_184_000,
        // 2001-01-01
        31_622_400,
        // 2001-03-01
        36_720_000,
        // 2004-02-29
        131_328_000,
        // 2004-03-01
        131_414_400,
        // 2024-03-01
        762_566_400,
        // 2050-07-01
        1_593_561_600,
        // 2096-02-29
        3_034_627_200,
        // 2096-03-01
        3_034_713_600,
        // 2099-03-01
        3_129_321_600,
        // 2099-12-01
        3_153_081_600u64,
    ] {
        for second in [0, 21_599, 21_600] {
            month(out, midnight.saturating_add(second))?;
        }
    }
    Ok(())
}

fn months(out: &mut Out) -> io::Result<()> {
    // The first six hours of all.
    for time in [0, 1, 21_599, 21_600] {
        month(out, time)?;
    }
    days(out)?;
    // The end of 2099, and six hours later.
    for time in [3_155_759_999, 3_155_760_000, 3_155_781_600, u64::MAX] {
        month(out, time)?;
    }
    Ok(())
}

fn months_held(out: &mut Out) -> io::Result<()> {
    for (month, time) in [
        (0, 0),
        (1_199, 0),
        (0, 21_599),
        (1_199, 21_599),
        (0, 21_600),
        (0, 2_678_400),
        (1, 2_678_400),
        (0, 2_699_999),
        (0, 2_700_000),
        (1, 2_699_999),
        (1, 2_700_000),
        (1, 5_184_000),
        (1, 5_205_599),
        (1, 5_205_600),
        (1_198, 3_155_759_999),
        (1_199, 3_155_759_999),
        (1_199, 3_155_760_000),
        (1_199, 3_155_781_600),
        (1_200, 3_155_760_000),
        (1_200, 3_155_781_600),
        (u64::MAX, 0),
    ] {
        let held = calendar::month_holds(month, time);
        writeln!(out, "month-holds {month} {time} = {}", YesNo(held))?;
    }
    Ok(())
}

fn months_from(out: &mut Out) -> io::Result<()> {
    for (month, time) in [
        (0, 21_599),
        (1_199, 21_599),
        (0, 2_678_400),
        (1, 2_678_400),
        (0, 2_699_999),
        (0, 2_700_000),
        (5, 0),
        (0, 3_155_759_999),
        (1_199, 3_155_759_999),
        (9_999, 2_700_000),
    ] {
        let from = calendar::month_from(month, time);
        writeln!(out, "month-from {month} {time} = {from}")?;
    }
    Ok(())
}

pub fn run(out: &mut Out) -> io::Result<()> {
    months(out)?;
    months_held(out)?;
    months_from(out)
}
