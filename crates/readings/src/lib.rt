// The three readings of a cycle: what is taken for p, T and K, and whether the alarm is present.
#![tactic(auto)]

ghost use Rattle.std.specs.Prelude.{◌≡◌};
ghost use Rattle.std.specs.Ordering.{partial_le};
ghost use Rattle.readings.specs.Taken.{no_alarm, alarm_with};
ghost use Rattle.readings.specs.Pressure.{pressure_taken};
ghost use Rattle.readings.specs.Compressibility.{k_taken};
ghost use Rattle.readings.specs.Temperature.{temperature_taken};
ghost use Rattle.readings.specs.Plan.{kept_by, read_by, kelvin_guarded};

use ground::ranges;

// What goes into the factor, and whether the alarm is present in this cycle.
#[derive(Clone, Copy)]
pub struct Taken<V> {
    pub alarm: bool,
    pub value: V,
}

fn no_alarm<V>(value: V) -> Taken<V>
    ensures { result ≡ no_alarm value }
{
    Taken {
        alarm: false,
        value,
    }
}

fn alarm_with<V>(fixed: V) -> Taken<V>
    ensures { result ≡ alarm_with fixed }
{
    Taken {
        alarm: true,
        value: fixed,
    }
}

// Outside lowest..highest, whose ends are inside: the alarm, and the fixed value.
fn taken_within<V: PartialOrd + Copy>(lowest: V, highest: V, fixed: V, x: V) -> Taken<V>
    ensures { result ≡ kept_by (partial_le V.partial_cmp) lowest highest fixed x }
{
    if (lowest..=highest).contains(&x) {
        no_alarm(x)
    } else {
        alarm_with(fixed)
    }
}

// None: the sensor failed, or the value was not computed.
#[tactic(auto, unfolding(crate::specs::Plan::read_by))]
fn read_within<V: PartialOrd + Copy>(
    lowest: V,
    highest: V,
    fixed: V,
    reading: Option<V>,
) -> Taken<V>
    ensures { result ≡ read_by (partial_le V.partial_cmp) lowest highest fixed reading }
{
    match reading {
        Some(x) => taken_within(lowest, highest, fixed, x),
        None => alarm_with(fixed),
    }
}

// In this order: Md.p, pMin, pMax, p.F and the reading, in pascals; None: the sensor failed.
#[tactic(auto, using(crate::proofs::Order::nat_kept), unfolding(crate::specs::Pressure::pressure_taken, crate::specs::Pressure::pressure_read, crate::specs::Taken::taken_within))]
pub fn pressure_taken(
    mode: u64,
    lowest: u64,
    highest: u64,
    fixed: u64,
    reading: Option<u64>,
) -> Taken<u64>
    ensures { result ≡ pressure_taken mode lowest highest fixed reading }
{
    if mode == 0 {
        return no_alarm(fixed);
    }
    // Stays: `let .. else` takes a pressure reading apart here: document 01's named form.
    let Some(p) = reading else {
        return alarm_with(fixed);
    };
    taken_within(lowest, highest, fixed, p)
}

// In this order: Md.K, K.F and the reading, in ten-thousandths; None: K was not computed.
#[tactic(auto, using(crate::proofs::Order::nat_kept), unfolding(crate::specs::Compressibility::k_taken, crate::specs::Compressibility::k_read, crate::specs::Taken::taken_within, crate::specs::Plan::read_by))]
pub fn k_taken(mode: u64, fixed: u64, reading: Option<u64>) -> Taken<u64>
    ensures { result ≡ k_taken mode fixed reading }
{
    if mode == 0 {
        return no_alarm(fixed);
    }
    read_within(ranges::LEAST_K, ranges::MOST_K, fixed, reading)
}

// In this order: Md.T, TMin, TMax, T.F, the three coefficients and the raw reading; None: the sensor failed.
#[tactic(auto, using(crate::proofs::Order::int_kept), unfolding(crate::specs::Temperature::temperature_taken, crate::specs::Temperature::temperature_read, crate::specs::Temperature::measured_taken, crate::specs::Plan::read_by))]
pub fn temperature_taken(
    mode: u64,
    lowest: i64,
    highest: i64,
    fixed: i64,
    c: temperature::Coefficients,
    reading: Option<u16>,
) -> Taken<i64>
    ensures { result ≡ temperature_taken mode lowest highest fixed c reading }
{
    if mode == 0 {
        return no_alarm(fixed);
    }
    let measured = reading.and_then(|raw| temperature::measure(c, raw));
    read_within(lowest, highest, fixed, measured)
}

// T in kelvin. Outside the range of T the sum might not fit, so it gives 0 there; no setting and no T.Mes lies there.
#[tactic(auto, unfolding(crate::specs::Plan::kelvin_guarded, crate::specs::Kelvin::kelvin_of))]
pub fn kelvin(t: i64) -> u64
    ensures { result ≡ kelvin_guarded t }
{
    if (ranges::COLDEST..=ranges::HOTTEST).contains(&t) {
        (t + ranges::ZERO_CELSIUS) as u64
    } else {
        0
    }
}
