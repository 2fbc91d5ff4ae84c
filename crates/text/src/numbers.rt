// A word read as a number, a reading or a value. `None` means that the word is not what was asked for.
ghost use Rattle.std.specs.Prelude.{◌≡◌, ◌<◌, ◌≤◌};
ghost use Rattle.std.specs.Float.Ieee.{of_bits};
ghost use Rattle.std.specs.Float.{binary64};
ghost use Rattle.text.specs.Numbers.{number_in, hex_of, code_of, reading_of, raw_by, whole_of, whole_by, coefficient_by, value_in};

use settings::Value;
use spelling::same;

// The bits of an infinity, its sign left out. Every larger pattern is a NaN's.
const INFINITE: u64 = 0x7ff0_0000_0000_0000;

// The weight of an f64's sign bit.
const SIGN: u64 = 0x8000_0000_0000_0000;

#[tactic(auto, using(spelling::proofs::Spells::one_more, crate::proofs::Digits::empty, crate::proofs::Digits::digit_at_lem), unfolding(ground::specs::Below::all_below, spelling::specs::Spelling::spelled))]
fn number_in(base: u64, w: &[u8]) -> Option<u64>
    requires { (0 < base) × (base ≤ 16) }
    ensures { result ≡ number_in base w.now }
{
    if w.is_empty() {
        return None;
    }
    let mut value: u64 = 0;
    for &b in w {
        let d = spelling::digit_of(b);
        if base <= d {
            return None;
        }
        value = value.checked_mul(base)?.checked_add(d)?;
    }
    Some(value)
}

pub fn number_of(w: &[u8]) -> Option<u64>
    ensures { result ≡ number_in 10 w.now }
{
    number_in(10, w)
}

#[tactic(auto, unfolding(crate::specs::Numbers::hex_of))]
fn hex_of(w: &[u8]) -> Option<u64>
    ensures { result ≡ hex_of w.now }
{
    if w.len() == 16 {
        number_in(16, w)
    } else {
        None
    }
}

#[tactic(auto, unfolding(crate::specs::Numbers::code_of))]
pub fn code_of(n: u64) -> Option<u32>
    ensures { result ≡ code_of n }
{
    u32::try_from(n).ok()
}

// The word `-` stands for a missing reading, `Some(None)`.
#[tactic(auto, unfolding(crate::specs::Numbers::reading_of))]
pub fn reading_of(w: &[u8]) -> Option<Option<u64>>
    ensures { result ≡ reading_of w.now }
{
    if same(w, b"-") {
        Some(None)
    } else {
        Some(Some(number_of(w)?))
    }
}

// A raw temperature has 16 bits.
pub fn raw_of(reading: Option<Option<u64>>) -> Option<Option<u16>>
    ensures { result ≡ raw_by reading }
{
    match reading? {
        Some(n) => Some(Some(u16::try_from(n).ok()?)),
        None => Some(None),
    }
}

fn whole_by(negative: bool, number: Option<u64>) -> Option<Value>
    ensures { result ≡ whole_by negative number }
{
    let n = number?;
    let whole = if negative {
        0i64.checked_sub_unsigned(n)?
    } else {
        0i64.checked_add_unsigned(n)?
    };
    Some(Value::Whole(whole))
}

// A whole number. One below zero has `-` before its digits.
#[tactic(auto, using(crate::proofs::Bytes::the_rest, crate::proofs::Digits::no_bytes), unfolding(crate::specs::Numbers::whole_of))]
fn whole_of(w: &[u8]) -> Option<Value>
    ensures { result ≡ whole_of w.now }
{
    match w {
        [b'-', digits @ ..] => whole_by(true, number_of(digits)),
        _ => whole_by(false, number_of(w)),
    }
}

// All NaNs are one value here, so a NaN's bits are not taken as they are.
#[tactic(auto, using(crate::proofs::Floats::nan_made, crate::proofs::Floats::no_nan))]
fn float_of(bits: u64) -> f64
    ensures { result ≡ of_bits binary64 bits }
{
    if INFINITE < bits % SIGN {
        f64::NAN
    } else {
        f64::from_bits(bits)
    }
}

fn coefficient_by(number: Option<u64>) -> Option<Value>
    ensures { result ≡ coefficient_by number }
{
    Some(Value::Coefficient(float_of(number?)))
}

// The words `w VALUE` or `c HEX`.
#[tactic(auto, unfolding(crate::specs::Numbers::value_in))]
pub fn value_in(kind: &[u8], w: &[u8]) -> Option<Value>
    ensures { result ≡ value_in kind.now w.now }
{
    if same(kind, b"w") {
        whole_of(w)
    } else if same(kind, b"c") {
        coefficient_by(hex_of(w))
    } else {
        None
    }
}
