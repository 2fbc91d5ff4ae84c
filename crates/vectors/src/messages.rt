// The message of six values, written into a buffer with two bytes more than it needs and read back from it, and what a litre is of an amount at base conditions.
use message::Values;
use print::{Hex, Out};
use std::fmt::Display;
use std::io::Write;
use std::{fmt, io};
use units::BaseUnits;

#[derive(Clone, Copy)]
struct Six(Values);

impl Display for Six {
    fn fmt<W: fmt::Write>(&self, f: &mut fmt::Formatter<W>) -> fmt::Result {
        let Values {
            vb,
            vbd,
            vbt,
            vm,
            vmd,
            vmt,
        } = self.0;
        write!(f, "{vb} {vbd} {vbt} {vm} {vmd} {vmt}")
    }
}

// What the reader makes of the message of these values.
fn parsed(out: &mut Out, v: Values, captured: &[u8]) -> io::Result<()> {
    write!(out, "parsed {} = ", Six(v))?;
    match reader::parse(captured) {
        Ok(read) => writeln!(out, "{}", Six(read)),
        Err(unread) => writeln!(out, "{}", unread.number()),
    }
}

fn ask(out: &mut Out, values: [u64; 6]) -> io::Result<()> {
    let [vb, vbd, vbt, vm, vmd, vmt] = values;
    let v = Values {
        vb,
        vbd,
        vbt,
        vm,
        vmd,
        vmt,
    };
    let mut buffer = [0xeeu8; message::SIZE + 2];
    message::write(v, &mut buffer);
    writeln!(out, "message {} = {}", Six(v), Hex(&buffer))?;
    parsed(out, v, &buffer[0..message::SIZE])
}

// The same value in all six places.
fn same(out: &mut Out, n: u64) -> io::Result<()> {
    ask(out, [n; 6])
}

// The same value in each of the six places in turn, and 0 in the others.
fn each_place(out: &mut Out, n: u64) -> io::Result<()> {
    for place in 0..6 {
        let mut values = [0; 6];
        values[place] = n;
        ask(out, values)?;
    }
    Ok(())
}

fn within_twelve_digits(out: &mut Out) -> io::Result<()> {
    for n in [
        0,
        1,
        9,
        10,
        99,
        999,
        1_000,
        999_999,
        1_000_000,
        99_999_999_999,
        100_000_000_000,
        999_999_999_999,
    ] {
        same(out, n)?;
    }
    for n in [1, 999_999_999_999, 123_456_789_012, 908_070_605_040] {
        each_place(out, n)?;
    }
    ask(out, [1_863, 931, 2_795, 1_000, 1_000, 2_000])?;
    ask(
        out,
        [999_999_999_999, 1, 0, 100_000_000_000, 10, 100_000_000_010],
    )?;
    ask(
        out,
        [
            314_159_265_358,
            979_323_846_264,
            293_483_111_622,
            271_828_182_845,
            904_523_536_028,
            176_351_718_873,
        ],
    )
}

// Of a larger value the last twelve digits are written.
fn past_twelve_digits(out: &mut Out) -> io::Result<()> {
    same(out, 1_000_000_000_000)?;
    same(out, u64::MAX)
}

fn whole_litres(out: &mut Out) -> io::Result<()> {
    for n in [
        0,
        99_999,
        100_000,
        100_001,
        199_999,
        186_355_000,
        99_999_999_999_999_999,
        u64::MAX,
    ] {
        writeln!(out, "litres {n} = {}", units::whole_litres(BaseUnits(n)))?;
    }
    Ok(())
}

pub fn run(out: &mut Out) -> io::Result<()> {
    within_twelve_digits(out)?;
    past_twelve_digits(out)?;
    whole_litres(out)
}
