// What a cycle leaves on the six counters, the kept totals among them.
use print::{Out, YesNo};
use state::{Alarms, Counters, Measured};
use std::fmt::Display;
use std::io::Write;
use std::{fmt, io};
use units::{Amounts, BaseUnits, Litres};

#[derive(Clone, Copy)]
struct Six(Counters);

impl Display for Six {
    fn fmt<W: fmt::Write>(&self, f: &mut fmt::Formatter<W>) -> fmt::Result {
        let Counters {
            vm,
            vmd,
            vmt,
            vb,
            vbd,
            vbt,
        } = self.0;
        write!(
            f,
            "{} {} {} {} {} {}",
            vm.0, vmd.0, vmt.0, vb.0, vbd.0, vbt.0
        )
    }
}

fn counters(litres: [u64; 3], base: [u64; 3]) -> Counters {
    Counters {
        vm: Litres(litres[0]),
        vmd: Litres(litres[1]),
        vmt: Litres(litres[2]),
        vb: BaseUnits(base[0]),
        vbd: BaseUnits(base[1]),
        vbt: BaseUnits(base[2]),
    }
}

// The pressure alarm, or none.
fn alarms(p: bool) -> Alarms {
    Alarms {
        p,
        t: false,
        k: false,
    }
}

fn counts(
    out: &mut Out,
    counters: Counters,
    alarm: bool,
    litres: u64,
    base: u64,
) -> io::Result<()> {
    let before = Measured {
        time: 0,
        month: 0,
        counters,
        alarms: alarms(false),
    };
    let amounts = Amounts {
        litres: Litres(litres),
        base: BaseUnits(base),
    };
    let after = measuring::measured_by(before, 0, alarms(alarm), Some(amounts));
    writeln!(
        out,
        "counts {} {} {litres} {base} = {}",
        Six(counters),
        YesNo(alarm),
        Six(after.counters)
    )
}

// VmT is 100 litres short of its rollover, and neither part is near it.
const BEFORE_VMT: [u64; 3] = [600_000_000_000, 399_999_999_900, 999_999_999_900];

// VbT is 18,635,500 short of its rollover.
const BEFORE_VBT: [u64; 3] = [
    60_000_000_000_000_000,
    39_999_999_981_364_500,
    99_999_999_981_364_500,
];

// Both parts at their highest.
const LITRES_AT_THE_END: [u64; 3] = [999_999_999_999, 999_999_999_999, 999_999_999_998];

const BASE_AT_THE_END: [u64; 3] = [
    99_999_999_999_999_999,
    99_999_999_999_999_999,
    99_999_999_999_999_998,
];

const NONE: [u64; 3] = [0; 3];

const MOST: [u64; 3] = [u64::MAX; 3];

pub fn run(out: &mut Out) -> io::Result<()> {
    for (litres_before, base_before, alarm, litres, base) in [
        (NONE, NONE, false, 1_000, 186_355_000),
        (NONE, NONE, true, 1_000, 93_178_000),
        (
            [1_000, 500, 1_500],
            [7, 8, 15],
            false,
            60_000_000,
            99_999_999_999_999_999,
        ),
        (BEFORE_VMT, NONE, false, 100, 18_635_500),
        (BEFORE_VMT, NONE, true, 100, 9_317_800),
        (BEFORE_VMT, NONE, false, 99, 1),
        (NONE, BEFORE_VBT, false, 100, 18_635_500),
        (NONE, BEFORE_VBT, true, 100, 18_635_500),
        (NONE, BEFORE_VBT, true, 100, 18_635_499),
        (LITRES_AT_THE_END, BASE_AT_THE_END, false, 100, 18_635_500),
        (LITRES_AT_THE_END, BASE_AT_THE_END, true, 100, 18_635_500),
        // Totals that are not main plus disturbed: each gains for itself.
        ([1, 2, 4], [3, 4, 8], true, 0, 0),
        (MOST, MOST, false, u64::MAX, u64::MAX),
        (MOST, MOST, true, u64::MAX, u64::MAX),
    ] {
        counts(
            out,
            counters(litres_before, base_before),
            alarm,
            litres,
            base,
        )?;
    }
    Ok(())
}
