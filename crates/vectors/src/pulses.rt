// The pulse outputs: how each of the four stands after a cycle, a tick and a commit, and what is shown of it. Every question is put to four outputs with rules of their own,
// and each of them has its line: its number, what was asked, and what came of it.
use crate::table::whole;
use outputs::{Account, COUNT, Gain, Output};
use print::{Out, YesNo};
use settings::Setting;
use settings::table::{CHOICE_1, WEIGHT_1};
use std::fmt::Display;
use std::io::Write;
use std::{fmt, io};
use units::{BaseUnits, Litres};

// An output with its choice and its weight.
#[derive(Clone, Copy)]
struct Case {
    choice: i64,
    weight: i64,
    output: Output,
}

// Its rule alone.
#[derive(Clone, Copy)]
struct Rule(Case);

impl Display for Rule {
    fn fmt<W: fmt::Write>(&self, f: &mut fmt::Formatter<W>) -> fmt::Result {
        write!(f, "{} {}", self.0.choice, self.0.weight)
    }
}

// Its account, what waits and what was lost.
#[derive(Clone, Copy)]
struct Standing(Output);

impl Display for Standing {
    fn fmt<W: fmt::Write>(&self, f: &mut fmt::Formatter<W>) -> fmt::Result {
        let Output {
            account,
            waiting,
            lost,
        } = self.0;
        write!(f, "{} {waiting} {lost}", account.0)
    }
}

// Both.
impl Display for Case {
    fn fmt<W: fmt::Write>(&self, f: &mut fmt::Formatter<W>) -> fmt::Result {
        write!(f, "{} {}", Rule(*self), Standing(self.output))
    }
}

fn output_of(account: u64, waiting: u16, lost: u32) -> Output {
    Output {
        account: Account(account),
        waiting,
        lost,
    }
}

fn asked(choice: i64, weight: i64, account: u64, waiting: u16, lost: u32) -> Case {
    Case {
        choice,
        weight,
        output: output_of(account, waiting, lost),
    }
}

fn held(cases: [Case; COUNT]) -> [Output; COUNT] {
    cases.map(|case| case.output)
}

fn rules(cases: [Case; COUNT]) -> [Setting; settings::COUNT] {
    let mut rules = settings::factory_settings();
    for (k, case) in cases.iter().enumerate() {
        rules[CHOICE_1 + k] = whole(case.choice);
        rules[WEIGHT_1 + k] = whole(case.weight);
    }
    rules
}

// ---- after a cycle

fn gain(
    out: &mut Out,
    disturbed: bool,
    litres: u64,
    base: u64,
    cases: [Case; COUNT],
) -> io::Result<()> {
    let gain = Gain {
        disturbed,
        litres: Litres(litres),
        base: BaseUnits(base),
    };
    let after = outputs::after_gains(held(cases), rules(cases), gain);
    for (k, case) in cases.iter().enumerate() {
        writeln!(
            out,
            "output-gain {} {case} {} {litres} {base} = {} {}",
            k + 1,
            YesNo(disturbed),
            Standing(after.outputs[k]),
            YesNo(after.over[k])
        )?;
    }
    Ok(())
}

// Every choice from 1 to 6 and an output that is off, each with a weight, a buffer and a lost counter of its own. A pulse is more than the cycle brings: it takes what is
// in the account as well.
fn first_four(vm: u64, vmd: u64, vmt: u64, vb: u64) -> [Case; COUNT] {
    [
        asked(1, 2_000, vm, 10, 1),
        asked(2, 2_500, vmd, 20, 2),
        asked(3, 3_000, vmt, 30, 3),
        asked(4, 4_000, vb, 40, 4),
    ]
}

fn last_four(vbd: u64, vbt: u64, vm: u64) -> [Case; COUNT] {
    [
        asked(5, 2_000, vbd, 50, 5),
        asked(6, 2_500, vbt, 60, 6),
        asked(0, 3_000, 0, 70, 7),
        asked(1, 4_000, vm, 80, 8),
    ]
}

// The cycle of H4: 1,000 litres, which are 1,863.55 at base conditions.
fn cycle(out: &mut Out, cases: [Case; COUNT]) -> io::Result<()> {
    for disturbed in [false, true] {
        gain(out, disturbed, 1_000, 186_355_000, cases)?;
    }
    Ok(())
}

// One weight exactly, one short of it, one more.
fn around_a_weight(out: &mut Out) -> io::Result<()> {
    cycle(out, first_four(1_000, 1_500, 2_000, 213_645_000))?;
    cycle(out, last_four(13_645_000, 63_645_000, 3_000))?;
    cycle(out, first_four(999, 1_499, 1_999, 213_644_999))?;
    cycle(out, last_four(13_644_999, 63_644_999, 2_999))?;
    cycle(out, first_four(1_001, 1_501, 2_001, 213_645_001))?;
    cycle(out, last_four(13_645_001, 63_645_001, 3_001))
}

// Many weights; no amount at all.
fn many_weights(out: &mut Out) -> io::Result<()> {
    let small = [
        asked(1, 7, 6, 0, 0),
        asked(2, 9, 0, 1, 1),
        asked(3, 1, 0, 2, 2),
        asked(4, 100, 9_999_999, 3, 3),
    ];
    let others = [
        asked(5, 1, 99_999, 4, 4),
        asked(6, 3, 0, 5, 5),
        asked(0, 1, 0, 6, 6),
        asked(2, 11, 10, 7, 7),
    ];
    cycle(out, small)?;
    cycle(out, others)?;
    gain(out, false, 0, 0, small)?;
    gain(out, true, 0, 0, others)
}

// The largest cycle: 600 pulses of 100,000 litres at the largest factor.
fn largest_cycle(out: &mut Out, cases: [Case; COUNT]) -> io::Result<()> {
    for disturbed in [false, true] {
        gain(out, disturbed, 60_000_000, 2_295_889_860_000_000, cases)?;
    }
    Ok(())
}

// The least weight, that of the factory and the most. The account takes part, just below its weight.
fn weights(out: &mut Out) -> io::Result<()> {
    largest_cycle(
        out,
        [
            asked(1, 1, 0, 0, 0),
            asked(2, 100, 99, 0, 0),
            asked(3, 100, 99, 0, 0),
            asked(3, 1_000_000, 999_999, 0, 0),
        ],
    )?;
    largest_cycle(
        out,
        [
            asked(4, 100, 9_999_999, 0, 0),
            asked(5, 1_000_000, 99_999_999_999, 0, 0),
            asked(6, 1_000_000, 99_999_999_999, 0, 0),
            asked(6, 1, 99_999, 0, 0),
        ],
    )
}

// More than 2^32 pulses due at once. Two lost counters start from the last number below 2^32; the others come to that number and to 0.
fn past_the_lost_counter(out: &mut Out) -> io::Result<()> {
    largest_cycle(
        out,
        [
            asked(6, 1, 0, 0, u32::MAX),
            asked(6, 1, 1, 65_535, u32::MAX),
            asked(6, 1, 99_999, 65_534, 2_810_905_176),
            asked(6, 1, 2, 65_535, 2_810_905_176),
        ],
    )
}

// 1,000 litres make no pulse, one, two and four. 65,535 waiting is no loss; one more is.
fn full_buffers(out: &mut Out) -> io::Result<()> {
    let nearly_full = [
        asked(1, 1_000, 0, 65_534, 9),
        asked(3, 500, 0, 65_534, u32::MAX),
        asked(1, 1_001, 0, 65_534, 7),
        asked(3, 250, 249, 65_531, 6),
    ];
    let full = [
        asked(1, 1_000, 0, 65_535, 4_294_967_294),
        asked(3, 500, 0, 65_535, 4_294_967_294),
        asked(1, 1_001, 0, 65_535, 7),
        asked(0, 250, 0, 65_535, 6),
    ];
    for cases in [nearly_full, full] {
        gain(out, false, 1_000, 0, cases)?;
    }
    let empty = [
        asked(1, 1, 0, 0, 0),
        asked(3, 1, 0, 1, 0),
        asked(4, 1, 99_999, 0, 0),
        asked(6, 1, 0, 0, 0),
    ];
    for (litres, base) in [
        (65_535, 6_553_500_000),
        (65_536, 6_553_600_000),
        (65_535, 6_553_500_001),
    ] {
        gain(out, false, litres, base, empty)?;
    }
    Ok(())
}

// No whole device asks this: accounts that are far above their weights, gains of 2^64 - 1, a choice and a weight past their ranges, which count nothing.
fn beyond(out: &mut Out) -> io::Result<()> {
    gain(
        out,
        false,
        u64::MAX,
        u64::MAX,
        [
            asked(3, 1, u64::MAX, 65_535, u32::MAX),
            asked(6, 1, u64::MAX, 0, 0),
            asked(7, 100, 5, 6, 7),
            asked(3, 1_000_001, 5, 8, 9),
        ],
    )
}

// ---- after a tick

fn tick(out: &mut Out, n: u64, outputs: [Output; COUNT]) -> io::Result<()> {
    let after = outputs::after_ticks(outputs, n);
    for (k, before) in outputs.iter().enumerate() {
        writeln!(
            out,
            "output-tick {} {n} {} = {} {}",
            k + 1,
            Standing(*before),
            Standing(after.outputs[k]),
            after.emitted[k]
        )?;
    }
    Ok(())
}

// None, some, and more than waits.
fn ticks(out: &mut Out) -> io::Result<()> {
    for outputs in [
        [
            output_of(11, 0, 5),
            output_of(12, 1, 6),
            output_of(13, 599, 7),
            output_of(14, 65_535, u32::MAX),
        ],
        [
            output_of(0, 601, u32::MAX),
            output_of(22, 600, 9),
            output_of(23, 65_534, 8),
            output_of(24, 598, 0),
        ],
    ] {
        for n in [0, 1, 599, 600, 65_535, 65_536, u64::MAX] {
            tick(out, n, outputs)?;
        }
    }
    Ok(())
}

// ---- after a commit

// The outputs are those of the old rules.
fn commit(out: &mut Out, old: [Case; COUNT], new: [Case; COUNT]) -> io::Result<()> {
    let after = outputs::after_commits(held(old), rules(old), rules(new));
    for (k, case) in old.iter().enumerate() {
        writeln!(
            out,
            "output-commit {} {} {} {} = {}",
            k + 1,
            Rule(*case),
            Rule(new[k]),
            Standing(case.output),
            Standing(after[k])
        )?;
    }
    Ok(())
}

fn ruled(choice: i64, weight: i64) -> Case {
    asked(choice, weight, 0, 0, 0)
}

// The same again; another choice, another weight, both, none; the rule of another output.
fn commits_of_counters(out: &mut Out) -> io::Result<()> {
    let old = [
        asked(1, 100, 99, 11, 1),
        asked(4, 200, 19_999_999, 22, 2),
        asked(6, 300, 5, 65_535, u32::MAX),
        asked(3, 400, 399, 0, 4),
    ];
    for new in [
        old,
        [ruled(2, 100), ruled(4, 201), ruled(5, 299), ruled(3, 400)],
        [ruled(1, 100), ruled(4, 200), ruled(6, 301), ruled(2, 400)],
        [ruled(4, 200), ruled(6, 300), ruled(3, 400), ruled(1, 100)],
        [ruled(0, 100), ruled(0, 200), ruled(6, 300), ruled(3, 1)],
        [ruled(4, 100), ruled(1, 200), ruled(3, 300), ruled(6, 400)],
    ] {
        commit(out, old, new)?;
    }
    Ok(())
}

// Off, on, and from one unit to the other.
fn commits_of_outputs_off(out: &mut Out) -> io::Result<()> {
    let old = [
        asked(0, 100, 0, 5, 1),
        asked(0, 200, 0, 6, 2),
        asked(2, 300, 299, 7, 3),
        asked(5, 1, 99_999, 8, 4),
    ];
    for new in [
        [
            ruled(0, 100),
            ruled(6, 200),
            ruled(2, 300),
            ruled(5, 1_000_000),
        ],
        [ruled(1, 100), ruled(0, 201), ruled(2, 300), ruled(0, 1)],
    ] {
        commit(out, old, new)?;
    }
    Ok(())
}

// ---- what is shown

fn show(out: &mut Out, cases: [Case; COUNT]) -> io::Result<()> {
    let shown = outputs::outputs_shown(held(cases), rules(cases));
    for (k, case) in cases.iter().enumerate() {
        let outputs::Shown {
            account,
            waiting,
            lost,
        } = shown[k];
        writeln!(
            out,
            "output-shown {} {case} = {account} {waiting} {lost}",
            k + 1
        )?;
    }
    Ok(())
}

// A litre counter and one at base conditions, with the same number in their accounts and with the most that a weight leaves.
fn shows(out: &mut Out) -> io::Result<()> {
    show(
        out,
        [
            asked(1, 1_000, 999, 1, 5),
            asked(2, 1_000_000, 999_999, 2, 6),
            asked(4, 1_000, 999, 3, 7),
            asked(5, 1_000_000, 99_999_999_999, 4, 8),
        ],
    )?;
    show(
        out,
        [
            asked(6, 1, 99_999, 65_535, u32::MAX),
            asked(3, 2, 1, 0, 0),
            asked(0, 100, 0, 9, 10),
            asked(6, 100, 6_355_000, 18, 0),
        ],
    )
}

pub fn run(out: &mut Out) -> io::Result<()> {
    around_a_weight(out)?;
    many_weights(out)?;
    weights(out)?;
    past_the_lost_counter(out)?;
    full_buffers(out)?;
    beyond(out)?;
    ticks(out)?;
    commits_of_counters(out)?;
    commits_of_outputs_off(out)?;
    shows(out)
}
