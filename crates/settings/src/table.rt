// The table of settings, as a fitter's card has it: one row for each setting. Range, factory value and lock of a setting are read from its row, and nowhere else. The locks
// have a row each too, which says which of the three give the right; so have the pairs of settings that stay in order.
ghost use Rattle.std.specs.Prelude.{◌≡◌, None};
ghost use Rattle.settings.specs.declared.Value.TheVariants.{Whole, Coefficient};
ghost use Rattle.settings.specs.Settings.{within_b, from_to, printed_row, row_with, row_of, printed_lock, lock_with, lock_row_of, pair_of};

use crate::Value;
use ground::ranges;

// The whole numbers from the lowest to the highest, both included.
#[derive(Clone, Copy, PartialEq, Eq)]
pub struct Range {
    pub lowest: i64,
    pub highest: i64,
}

impl Range {
    #[tactic(auto, unfolding(crate::specs::Settings::within_b))]
    pub fn contains(self, n: i64) -> bool
        ensures { result ≡ within_b self.lowest self.highest n }
    {
        self.lowest <= n && n <= self.highest
    }
}

// A row, in the order of the card: number, name, unit, range, factory value, lock. A setting without a range is a coefficient, and takes any finite float.
#[derive(Clone, Copy)]
pub struct Row {
    pub number: u64,
    pub name: &'static str,
    pub unit: &'static str,
    pub range: Option<Range>,
    pub factory: Value,
    pub lock: u8,
}

// ---- the locks

// How many locks there are.
pub const LOCKS: u8 = 3;

// Stays: numbers, because `lock_of` and `lock_opens` are asked with any number, and `no_such_lock` and `locked` speak of the numbers that are no lock.
pub const CAL: u8 = 1;

pub const SUP: u8 = 2;

pub const CUST: u8 = 3;

// Clear needs what a setting of this lock needs.
pub const CLEAR: u8 = SUP;

// A lock's row: its number, its name, and which of the three locks give the right that it stands for, each by itself.
#[derive(Clone, Copy)]
pub struct Lock {
    pub number: u8,
    pub name: &'static str,
    pub cal: bool,
    pub sup: bool,
    pub cust: bool,
}

impl Lock {
    fn new(number: u8, name: &'static str, cal: bool, sup: bool, cust: bool) -> Lock
        ensures { printed_lock result ≡ lock_with number name.now cal sup cust }
    {
        Lock {
            number,
            name,
            cal,
            sup,
            cust,
        }
    }
}

// "cal" needs lock 1, "sup" lock 1 or 2, "cust" any of the three.
#[tactic(auto, unfolding(crate::specs::Settings::lock_row_of, crate::specs::Settings::locks))]
pub fn lock_of(lock: u8) -> Lock
    ensures { printed_lock result ≡ lock_row_of lock }
{
    match lock {
        CAL => Lock::new(1, "calibration", true, false, false),
        SUP => Lock::new(2, "supplier's", true, true, false),
        CUST => Lock::new(3, "customer's", true, true, true),
        _ => Lock::new(0, "-", false, false, false),
    }
}

// ---- the place of each setting in the table, from 0
// Stays: numbers, since a command names a setting by its number, and any number may be given (refusal 3).

pub const CP: usize = 0;

pub const PB: usize = 1;

pub const TB: usize = 2;

pub const MD_P: usize = 3;

pub const MD_T: usize = 4;

pub const MD_K: usize = 5;

pub const P_MIN: usize = 6;

pub const P_MAX: usize = 7;

pub const T_MIN: usize = 8;

pub const T_MAX: usize = 9;

pub const EQ1: usize = 10;

pub const EQ2: usize = 11;

pub const EQ3: usize = 12;

pub const P_F: usize = 13;

pub const T_F: usize = 14;

pub const K_F: usize = 15;

pub const HO_B: usize = 16;

pub const CO2: usize = 17;

pub const H2: usize = 18;

pub const RHOB: usize = 19;

pub const CUSTOMER: usize = 20;

// The choices of the four outputs, then their weights.
pub const CHOICE_1: usize = 21;

pub const CHOICE_2: usize = CHOICE_1 + 1;

pub const CHOICE_3: usize = CHOICE_1 + 2;

pub const CHOICE_4: usize = CHOICE_1 + 3;

pub const WEIGHT_1: usize = 25;

pub const WEIGHT_2: usize = WEIGHT_1 + 1;

pub const WEIGHT_3: usize = WEIGHT_1 + 2;

pub const WEIGHT_4: usize = WEIGHT_1 + 3;

// ---- units

// What a cp code c means.
const PULSE: &str = "one pulse is 10^(c+1) litres";

// A pressure.
const PA: &str = "Pa";

// A temperature in kelvins.
const KEL: &str = "0.01 K";

// What a mode means.
const P_MODE: &str = "0 p.F, 1 measured";

const T_MODE: &str = "0 T.F, 1 measured";

const K_MODE: &str = "0 K.F, 1 computed";

// A temperature in degrees Celsius.
const DEG: &str = "0.01 °C";

// No unit.
const NONE: &str = "-";

// A number with four decimals.
const FOUR: &str = "0.0001";

// The energy of a cubic metre.
const KWH: &str = "0.001 kWh/m³";

// A share.
const PCT: &str = "0.01 %";

// The mass of a cubic metre.
const KG: &str = "0.0001 kg/m³";

// What an output follows.
const FOLLOWS: &str = "0 off, 1 Vm, 2 VmD, 3 VmT, 4 Vb, 5 VbD, 6 VbT";

// What an output makes a pulse of.
const LITRE: &str = "litres a pulse";

// ---- ends of ranges that other rules go by too

const TOP_CP: i64 = ranges::MOST_CODE as i64;

const LOW_K: i64 = ranges::LEAST_K as i64;

const TOP_K: i64 = ranges::MOST_K as i64;

const K_SCALE: i64 = ranges::K_SCALE as i64;

const LOW_P: i64 = ranges::LEAST_P as i64;

const TOP_P: i64 = ranges::MOST_P as i64;

const LOW_PB: i64 = ranges::LEAST_PB as i64;

const TOP_PB: i64 = ranges::MOST_PB as i64;

const LOW_TB: i64 = ranges::LEAST_TB as i64;

const TOP_TB: i64 = ranges::MOST_TB as i64;

const LOW_W: i64 = ranges::LEAST_WEIGHT as i64;

const TOP_W: i64 = ranges::MOST_WEIGHT as i64;

const LOW_T: i64 = ranges::COLDEST;

const TOP_T: i64 = ranges::HOTTEST;

// The last counter that an output may follow, and its factory weight: figures of four rows each.
const TOP_CHOICE: i64 = 6;

const FAC_W: i64 = 100;

// ---- the rows

impl Row {
    fn whole(
        number: u64,
        name: &'static str,
        unit: &'static str,
        lowest: i64,
        highest: i64,
        factory: i64,
        lock: u8,
    ) -> Row
        ensures { printed_row result ≡ row_with number name.now unit.now (from_to lowest highest) (Whole factory) lock }
    {
        Row {
            number,
            name,
            unit,
            range: Some(Range { lowest, highest }),
            factory: Value::Whole(factory),
            lock,
        }
    }

    fn coefficient(
        number: u64,
        name: &'static str,
        unit: &'static str,
        factory: f64,
        lock: u8,
    ) -> Row
        ensures { printed_row result ≡ row_with number name.now unit.now None (Coefficient factory) lock }
    {
        Row {
            number,
            name,
            unit,
            range: None,
            factory: Value::Coefficient(factory),
            lock,
        }
    }
}

// The table. After the unit: lowest and highest value, factory value and lock; a coefficient has only the last two. It is a `match` and not an array, because a constant
// array would be copied to the stack at each use.
#[tactic(auto, unfolding(crate::specs::Settings::row_of, crate::specs::Settings::rows))]
pub fn row_of(k: usize) -> Row
    ensures { printed_row result ≡ row_of k }
{
    match k {
        CP => Row::whole(1, "cp code c", PULSE, 0, TOP_CP, 1, CAL),
        PB => Row::whole(2, "pb", PA, LOW_PB, TOP_PB, 101_325, CAL),
        TB => Row::whole(3, "Tb", KEL, LOW_TB, TOP_TB, 27_315, CAL),
        MD_P => Row::whole(4, "Md.p", P_MODE, 0, 1, 1, CAL),
        MD_T => Row::whole(5, "Md.T", T_MODE, 0, 1, 1, CAL),
        MD_K => Row::whole(6, "Md.K", K_MODE, 0, 1, 0, CAL),
        P_MIN => Row::whole(7, "pMin", PA, LOW_P, TOP_P, 90_000, CAL),
        P_MAX => Row::whole(8, "pMax", PA, LOW_P, TOP_P, 700_000, CAL),
        T_MIN => Row::whole(9, "TMin", DEG, LOW_T, TOP_T, -2_000, CAL),
        T_MAX => Row::whole(10, "TMax", DEG, LOW_T, TOP_T, 6_000, CAL),
        EQ1 => Row::coefficient(11, "Eq1.T", NONE, -40.0, CAL),
        EQ2 => Row::coefficient(12, "Eq2.T", NONE, 0.0078125, CAL),
        EQ3 => Row::coefficient(13, "Eq3.T", NONE, 0.0, CAL),
        P_F => Row::whole(14, "p.F", PA, LOW_P, TOP_P, 101_325, SUP),
        T_F => Row::whole(15, "T.F", DEG, LOW_T, TOP_T, 1_500, SUP),
        K_F => Row::whole(16, "K.F", FOUR, LOW_K, TOP_K, K_SCALE, SUP),
        HO_B => Row::whole(17, "Ho.b", KWH, 5_000, 14_000, 11_000, SUP),
        CO2 => Row::whole(18, "CO2", PCT, 0, 3_000, 100, SUP),
        H2 => Row::whole(19, "H2", PCT, 0, 1_000, 0, SUP),
        RHOB => Row::whole(20, "Rhob", KG, 6_000, 12_000, 8_000, SUP),
        CUSTOMER => Row::whole(21, "customer's number", NONE, 0, 999_999_999, 0, CUST),
        CHOICE_1 => Row::whole(22, "choice of output 1", FOLLOWS, 0, TOP_CHOICE, 0, SUP),
        CHOICE_2 => Row::whole(23, "choice of output 2", FOLLOWS, 0, TOP_CHOICE, 0, SUP),
        CHOICE_3 => Row::whole(24, "choice of output 3", FOLLOWS, 0, TOP_CHOICE, 0, SUP),
        CHOICE_4 => Row::whole(25, "choice of output 4", FOLLOWS, 0, TOP_CHOICE, 0, SUP),
        WEIGHT_1 => Row::whole(26, "weight of output 1", LITRE, LOW_W, TOP_W, FAC_W, SUP),
        WEIGHT_2 => Row::whole(27, "weight of output 2", LITRE, LOW_W, TOP_W, FAC_W, SUP),
        WEIGHT_3 => Row::whole(28, "weight of output 3", LITRE, LOW_W, TOP_W, FAC_W, SUP),
        WEIGHT_4 => Row::whole(29, "weight of output 4", LITRE, LOW_W, TOP_W, FAC_W, SUP),
        _ => Row::whole(0, "-", NONE, 0, 0, 0, 0),
    }
}

// ---- the pairs

pub const PAIRS: usize = 2;

// The first is at most the second. Both are places.
#[derive(Clone, Copy, PartialEq, Eq)]
pub struct Pair {
    pub low: usize,
    pub high: usize,
}

#[tactic(auto, unfolding(crate::specs::Settings::pair_of, crate::specs::Settings::pairs))]
pub fn pair_of(i: usize) -> Pair
    ensures { result ≡ pair_of i }
{
    match i {
        0 => Pair {
            low: P_MIN,
            high: P_MAX,
        },
        1 => Pair {
            low: T_MIN,
            high: T_MAX,
        },
        _ => Pair { low: 0, high: 0 },
    }
}
