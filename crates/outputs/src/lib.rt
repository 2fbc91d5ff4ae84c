// The pulse outputs (document 02, Three): the rule of one output by value, and the four, each by that rule. An account counts in the unit of the counter that its output
// follows: litres for Vm, VmD and VmT, hundred-thousandths of a litre for Vb, VbD and VbT. It is a type of its own, so that neither unit is added to it by mistake:
// `after_gain` and `gain_on` alone make an amount of it, both by the same counter.
#![tactic(auto)]

ghost use Rattle.std.specs.Prelude.{◌≡◌, ◌<◌, ◌≤◌};
ghost use Rattle.ground.specs.Ranges.{most_weight};
ghost use Rattle.units.specs.Units.{put_by};
ghost use Rattle.outputs.specs.Outputs.{followed, litre_on, weight_in, account_of, credited_by, gained_by, ticked_by, committed_by, output_b, fresh_output};
ghost use Rattle.outputs.specs.Four.{output_count, rule_at, all_gained, none_gained, all_ticked, all_committed, outputs_b, fresh_outputs};
ghost use Rattle.outputs.specs.Plan.{guarded_by, rule_guarded, pushed, gained_of, most_account, account_guarded, shown_guarded, all_shown_guarded};

use ground::ranges::MOST_WEIGHT;
use settings::Setting;
use units::{BaseUnits, Counter, LITRE_AT_BASE, Litres};

// How many outputs there are.
pub const COUNT: usize = 4;

// The most pulses that a tick may name.
pub const MOST_TICK: u64 = 600;

pub const MOST_WAITING: u64 = 65_535;

// The lost counter counts modulo 2^32.
const LOST_ROLLOVER: u64 = 4_294_967_296;

// The largest weight, in the smaller unit.
const MOST_ACCOUNT: u64 = MOST_WEIGHT * LITRE_AT_BASE;

// An amount in the unit of the counter that the output follows.
#[derive(Clone, Copy, PartialEq, Eq)]
pub struct Account(pub u64);

// The two settings of an output: what it follows, and its weight in litres a pulse.
#[derive(Clone, Copy, PartialEq, Eq)]
pub struct Rule {
    pub choice: u64,
    pub weight: u64,
}

// What an accepted cycle counts, and whether it goes to the disturbed counters.
#[derive(Clone, Copy, PartialEq, Eq)]
pub struct Gain {
    pub disturbed: bool,
    pub litres: Litres,
    pub base: BaseUnits,
}

// What waits and what was lost have the widths of their limits: more than 65,535 cannot wait, and the lost counter cannot reach 2^32.
#[derive(Clone, Copy, PartialEq, Eq)]
pub struct Output {
    pub account: Account,
    pub waiting: u16,
    pub lost: u32,
}

// A buffer while pulses go in; `over` says that some were lost.
#[derive(Clone, Copy)]
struct Buffer {
    waiting: u16,
    lost: u32,
    over: bool,
}

// An output after a cycle; `over` asks for its line in the logbook.
#[derive(Clone, Copy)]
pub struct Gained {
    pub output: Output,
    pub over: bool,
}

#[derive(Clone, Copy)]
pub struct Ticked {
    pub output: Output,
    pub emitted: u16,
}

// Stays: two arrays side by side, here and in `AllTicked`: the state takes the outputs alone, so an array of `Gained` would only be taken apart again.
#[derive(Clone, Copy)]
pub struct AllGained {
    pub outputs: [Output; COUNT],
    pub over: [bool; COUNT],
}

#[derive(Clone, Copy)]
pub struct AllTicked {
    pub outputs: [Output; COUNT],
    pub emitted: [u16; COUNT],
}

// What a report shows of an output. The account is in hundred-thousandths of a litre, whatever the output follows.
#[derive(Clone, Copy, PartialEq, Eq)]
pub struct Shown {
    pub account: u64,
    pub waiting: u16,
    pub lost: u32,
}

// ---- choice and weight

// The counter that a choice follows. A broken state may have any number as a choice: one above 6 follows nothing.
#[tactic(auto, using(crate::proofs::Choices::past_choices), unfolding(crate::specs::Outputs::choices, crate::specs::Outputs::followed))]
fn followed(choice: u64) -> Option<Counter>
    ensures { result ≡ followed choice }
{
    match choice {
        1 => Some(Counter::Vm),
        2 => Some(Counter::VmD),
        3 => Some(Counter::VmT),
        4 => Some(Counter::Vb),
        5 => Some(Counter::VbD),
        6 => Some(Counter::VbT),
        _ => None,
    }
}

// A litre in the unit of a counter.
#[tactic(auto, unfolding(crate::specs::Outputs::litre_on))]
fn litre_on(counter: Counter) -> u64
    ensures { result ≡ litre_on counter }
{
    match counter {
        Counter::Vm | Counter::VmD | Counter::VmT => 1,
        Counter::Vb | Counter::VbD | Counter::VbT => LITRE_AT_BASE,
    }
}

// What a counter gains.
fn gain_on(counter: Counter, g: Gain) -> Account
    ensures { result ≡ account_of (put_by counter g.disturbed g.litres.0 g.base.0) }
{
    Account(match counter {
        Counter::Vm => if g.disturbed { 0 } else { g.litres.0 },
        Counter::VmD => if g.disturbed { g.litres.0 } else { 0 },
        Counter::VmT => g.litres.0,
        Counter::Vb => if g.disturbed { 0 } else { g.base.0 },
        Counter::VbD => if g.disturbed { g.base.0 } else { 0 },
        Counter::VbT => g.base.0,
    })
}

#[tactic(auto, unfolding(crate::specs::Four::rule_at))]
fn rule_at(a: [Setting; settings::COUNT], k: usize) -> Rule
    requires { k < output_count }
    ensures { result ≡ rule_at a k }
{
    Rule {
        choice: settings::natural_at(a, settings::table::CHOICE_1 + k),
        weight: settings::natural_at(a, settings::table::WEIGHT_1 + k),
    }
}

impl Rule {
    // A weight above the most is no setting. Its product might not fit 64 bits, so such an output is taken as off.
    #[tactic(auto, unfolding(crate::specs::Plan::guarded_by))]
    fn guarded(self) -> Rule
        ensures rule { result ≡ guarded_by self }
        ensures fits { result.weight ≤ most_weight }
    {
        if self.weight <= MOST_WEIGHT {
            self
        } else {
            Rule {
                choice: 0,
                weight: 0,
            }
        }
    }
}

// ---- a gain

impl From<Output> for Buffer {
    ghost use Rattle.outputs.specs.Plan.{buffer_of};

    ghost from_gives = { λ o b. b ≡ buffer_of o };

    #[tactic(auto, unfolding(crate::specs::Plan::buffer_of))]
    fn from(o: Output) -> Buffer {
        Buffer {
            waiting: o.waiting,
            lost: o.lost,
            over: false,
        }
    }
}

impl Buffer {
    // Pulses due go to the buffer. They are compared with the room that is left, so that no number of them overflows.
    #[tactic(auto, using(crate::proofs::Buffers::push_is))]
    fn pushed(self, due: u64) -> Buffer
        ensures { result ≡ pushed due self }
    {
        let room = MOST_WAITING - self.waiting as u64;
        let excess = due.saturating_sub(room);
        Buffer {
            waiting: self.waiting + due.min(room) as u16,
            lost: self.lost.wrapping_add((excess % LOST_ROLLOVER) as u32),
            over: self.over || 0 < excess,
        }
    }

    #[tactic(auto, unfolding(crate::specs::Plan::gained_of))]
    fn gained(self, account: u64) -> Gained
        ensures { result ≡ gained_of account self }
    {
        Gained {
            output: Output {
                account: Account(account),
                waiting: self.waiting,
                lost: self.lost,
            },
            over: self.over,
        }
    }
}

// The whole weights of the account, of the gain and of what both leave go to the buffer one after another, because the sum of account and gain might not fit 64 bits.
#[tactic(auto, using(crate::proofs::Credited::none_credited))]
fn credit(o: Output, weight: Account, gain: Account) -> Gained
    requires { weight.0 ≤ most_account }
    ensures { result ≡ credited_by weight.0 gain.0 o }
{
    let buffer = Buffer::from(o);
    let w = weight.0;
    if w == 0 {
        return buffer.gained(0);
    }
    let rest = o.account.0 % w + gain.0 % w;
    buffer
        .pushed(o.account.0 / w)
        .pushed(gain.0 / w)
        .pushed(rest / w)
        .gained(rest % w)
}

// Most outputs are off, and there is nothing to work out for them.
#[tactic(auto, using(crate::proofs::Choices::most_on, crate::proofs::Choices::gained_on, crate::proofs::Credited::off_gained))]
fn after_gain(o: Output, r: Rule, g: Gain) -> Gained
    requires { r.weight ≤ most_weight }
    ensures { result ≡ gained_by r g o }
{
    let Some(counter) = followed(r.choice) else {
        return Buffer::from(o).gained(0);
    };
    credit(
        o,
        Account(litre_on(counter) * r.weight),
        gain_on(counter, g),
    )
}

// ---- a tick

#[tactic(auto, unfolding(crate::specs::Outputs::ticked_by))]
fn after_tick(o: Output, n: u64) -> Ticked
    ensures { result ≡ ticked_by n o }
{
    let emitted = n.min(o.waiting as u64) as u16;
    Ticked {
        output: Output {
            waiting: o.waiting - emitted,
            ..o
        },
        emitted,
    }
}

// ---- a commit

#[tactic(auto, unfolding(crate::specs::Outputs::committed_by, crate::specs::Outputs::same_rule))]
fn after_commit(o: Output, old: Rule, new: Rule) -> Output
    ensures { result ≡ committed_by old new o }
{
    if old == new {
        o
    } else {
        Output {
            account: Account(0),
            ..o
        }
    }
}

// ---- when an output is whole

// The account is compared in whole litres, so that no weight overflows. What waits and what was lost are in range by their widths.
#[tactic(auto, using(crate::proofs::Choices::litre_on_lem, crate::proofs::Whole::whole_on, crate::proofs::Whole::none_whole), unfolding(crate::specs::Outputs::output_b, crate::specs::Outputs::account_b))]
fn output_ok(o: Output, r: Rule) -> bool
    ensures { result ≡ output_b r o }
{
    match followed(r.choice) {
        Some(counter) => o.account.0 / litre_on(counter) < r.weight,
        None => r.choice == 0 && o.account.0 == 0,
    }
}

// ---- what a report shows

// An account above the largest weight is in no whole state, and its product might not fit 64 bits.
#[tactic(auto, using(crate::proofs::Choices::litre_on_lem, crate::proofs::Choices::shown_on, crate::proofs::Choices::none_shown_lem), unfolding(crate::specs::Plan::account_guarded))]
fn account_shown(choice: u64, account: u64) -> u64
    ensures { result ≡ account_guarded choice account }
{
    match followed(choice) {
        Some(counter) if account <= MOST_ACCOUNT => account * LITRE_AT_BASE / litre_on(counter),
        _ => 0,
    }
}

#[tactic(auto, unfolding(crate::specs::Plan::shown_guarded))]
fn output_shown(o: Output, r: Rule) -> Shown
    ensures { result ≡ shown_guarded r o }
{
    Shown {
        account: account_shown(r.choice, o.account.0),
        waiting: o.waiting,
        lost: o.lost,
    }
}

// ---- the four

#[tactic(auto, unfolding(crate::specs::Four::fresh_outputs))]
pub fn fresh_outputs() -> [Output; COUNT]
    ensures { result ≡ fresh_outputs }
{
    let fresh = Output {
        account: Account(0),
        waiting: 0,
        lost: 0,
    };
    [fresh; COUNT]
}

// After an accepted cycle, by the settings in force.
pub fn after_gains(o: [Output; COUNT], a: [Setting; settings::COUNT], g: Gain) -> AllGained
    ensures { result ≡ all_gained (rule_guarded a) g o }
{
    let gained: [Gained; COUNT] = std::array::from_fn(|k| after_gain(
        o[k],
        rule_at(a, k).guarded(),
        g,
    ));
    AllGained {
        outputs: gained.map(|x| x.output),
        over: gained.map(|x| x.over),
    }
}

#[tactic(auto, unfolding(crate::specs::Four::none_gained))]
pub fn no_gains(o: [Output; COUNT]) -> AllGained
    ensures { result ≡ none_gained o }
{
    AllGained {
        outputs: o,
        over: [false; COUNT],
    }
}

pub fn after_ticks(o: [Output; COUNT], n: u64) -> AllTicked
    ensures { result ≡ all_ticked n o }
{
    let ticked = o.map(|x| after_tick(x, n));
    AllTicked {
        outputs: ticked.map(|x| x.output),
        emitted: ticked.map(|x| x.emitted),
    }
}

// After an accepted commit: the settings before it, and as they stand now.
pub fn after_commits(
    o: [Output; COUNT],
    a: [Setting; settings::COUNT],
    b: [Setting; settings::COUNT],
) -> [Output; COUNT]
    ensures { result ≡ all_committed (rule_at a) (rule_at b) o }
{
    std::array::from_fn(|k| after_commit(o[k], rule_at(a, k), rule_at(b, k)))
}

pub fn outputs_ok(o: [Output; COUNT], a: [Setting; settings::COUNT]) -> bool
    ensures { result ≡ outputs_b (rule_at a) o }
{
    o.iter()
        .enumerate()
        .all(|(k, output)| output_ok(*output, rule_at(a, k)))
}

pub fn outputs_shown(o: [Output; COUNT], a: [Setting; settings::COUNT]) -> [Shown; COUNT]
    ensures { result ≡ all_shown_guarded a o }
{
    std::array::from_fn(|k| output_shown(o[k], rule_at(a, k)))
}
