// The settings of the corrector: which values fit, and which locks give the right to change them, each read from the setting's row in the table. A setting is named here by
// its place in the table, from 0: its number less one.
#![tactic(auto)]

pub mod table;

ghost use Rattle.std.specs.Prelude.{◌≡◌, get_or, set};
ghost use Rattle.settings.specs.Settings.{
  no_setting,
  row_of,
  is_finite,
  within_b,
  printed_row,
  fits_row,
  fits_b,
  factory_of,
  factory_settings,
  whole_of,
  natural_of,
  natural_at,
  coefficient_of,
  opens_b,
  right_b,
  settings_fit_b,
  pair_in_order,
  ordered_b,
};

use table::{Pair, Row, lock_of, pair_of, row_of};

// How many settings there are.
pub const COUNT: usize = 29;

#[derive(Clone, Copy)]
pub enum Value {
    Whole(i64),
    Coefficient(f64),
}

#[derive(Clone, Copy)]
pub struct Setting {
    pub value: Value,
}

// f - f is 0 exactly when f is finite; for an infinity or a NaN it is NaN.
#[tactic(auto, using(crate::proofs::Floats::less_itself))]
fn finite(f: f64) -> bool
    ensures { result ≡ is_finite f }
{
    f - f == 0.0
}

#[tactic(auto, unfolding(crate::specs::Settings::fits_range, crate::specs::Settings::fits_row))]
fn row_fits(r: Row, v: Value) -> bool
    ensures { result ≡ fits_row (printed_row r) v }
{
    match (r.range, v) {
        (Some(range), Value::Whole(n)) => range.contains(n),
        (None, Value::Coefficient(f)) => finite(f),
        _ => false,
    }
}

// Refusal 9 is given exactly when this is false.
#[tactic(auto, unfolding(crate::specs::Settings::fits_b))]
pub fn setting_fits(k: usize, v: Value) -> bool
    ensures { result ≡ fits_b k v }
{
    k < COUNT && row_fits(row_of(k), v)
}

#[tactic(auto, unfolding(crate::specs::Settings::factory_of))]
pub fn factory(k: usize) -> Setting
    ensures { result ≡ factory_of (row_of k) }
{
    Setting {
        value: row_of(k).factory,
    }
}

fn no_setting() -> Setting
    ensures { result ≡ no_setting }
{
    Setting {
        value: Value::Whole(0),
    }
}

// Safe for any k: reading past the end gives 0, writing there changes nothing.
pub fn setting_at(a: [Setting; COUNT], k: usize) -> Setting
    ensures { result ≡ get_or a k no_setting }
{
    ground::at(&a, k, no_setting())
}

pub fn setting_put(mut a: [Setting; COUNT], k: usize, x: Setting) -> [Setting; COUNT]
    ensures { result ≡ set a k x }
{
    ground::put(&mut a, k, x);
    a
}

#[tactic(auto, unfolding(crate::specs::Settings::rows, crate::specs::Settings::row_of, crate::specs::Settings::factory_of, crate::specs::Settings::factory_settings))]
pub fn factory_settings() -> [Setting; COUNT]
    ensures { result ≡ factory_settings }
{
    std::array::from_fn(factory)
}

pub fn whole_of(v: Value) -> i64
    ensures { result ≡ whole_of v }
{
    match v {
        Value::Whole(n) => n,
        Value::Coefficient(_) => 0,
    }
}

pub fn natural_of(v: Value) -> u64
    ensures { result ≡ natural_of v }
{
    whole_of(v).max(0) as u64
}

pub fn natural_at(a: [Setting; COUNT], k: usize) -> u64
    ensures { result ≡ natural_at a k }
{
    natural_of(setting_at(a, k).value)
}

pub fn coefficient_of(v: Value) -> f64
    ensures { result ≡ coefficient_of v }
{
    match v {
        Value::Whole(_) => 0.0,
        Value::Coefficient(f) => f,
    }
}

// The rule of rights: whether one of the locks that the lock's row names is open.
// Stays: three flags side by side, because `cal_needs`, `sup_needs` and `cust_needs` speak of each of them.
#[tactic(auto, unfolding(crate::specs::Settings::opens_b))]
pub fn lock_opens(lock: u8, cal: bool, sup: bool, cust: bool) -> bool
    ensures { result ≡ opens_b lock cal sup cust }
{
    let row = lock_of(lock);
    row.cal && cal || row.sup && sup || row.cust && cust
}

#[tactic(auto, unfolding(crate::specs::Settings::right_b))]
pub fn right_for(k: usize, cal: bool, sup: bool, cust: bool) -> bool
    ensures { result ≡ right_b k cal sup cust }
{
    lock_opens(row_of(k).lock, cal, sup, cust)
}

#[tactic(auto, unfolding(ground::specs::Below::all_below, crate::specs::Settings::fits_at, crate::specs::Settings::settings_fit_b))]
pub fn settings_fit(a: [Setting; COUNT]) -> bool
    ensures { result ≡ settings_fit_b a }
{
    a.iter()
        .enumerate()
        .all(|(k, setting)| setting_fits(k, setting.value))
}

#[tactic(auto, unfolding(crate::specs::Settings::in_order, crate::specs::Settings::pair_in_order))]
fn in_order(a: [Setting; COUNT], p: Pair) -> bool
    ensures { result ≡ pair_in_order a p }
{
    whole_of(setting_at(a, p.low).value) <= whole_of(setting_at(a, p.high).value)
}

// Refusal 12 is given exactly when this is false of the settings as they would stand.
#[tactic(auto, unfolding(ground::specs::Below::all_below, crate::specs::Settings::ordered_at, crate::specs::Settings::ordered_b))]
pub fn pairs_ordered(a: [Setting; COUNT]) -> bool
    ensures { result ≡ ordered_b a }
{
    (0..table::PAIRS).all(|i| in_order(a, pair_of(i)))
}
