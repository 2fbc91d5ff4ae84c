// How the trial programs and the card print: to standard output by `writeln!`, with what is printed in a way of its own. Nothing here puts a space first.
#![tactic(auto)]

use settings::Value;
use std::fmt;
use std::fmt::Display;
use std::io::{BufWriter, Stdout};

// Where a program prints: standard output, some kilobytes at a time. A program ends with `out.flush()`.
pub type Out = BufWriter<Stdout>;

// A float as the 16 hexadecimal digits of its bits, so that printing rounds nothing. A NaN is `nan`: it has no bits of its own.
#[derive(Clone, Copy)]
pub struct Bits(pub f64);

impl Display for Bits {
    fn fmt<W: fmt::Write>(&self, f: &mut fmt::Formatter<W>) -> fmt::Result {
        let x = self.0;
        if x.is_nan() {
            f.write_str("nan")
        } else {
            write!(f, "{:016x}", x.to_bits())
        }
    }
}

#[derive(Clone, Copy)]
pub struct YesNo(pub bool);

impl Display for YesNo {
    fn fmt<W: fmt::Write>(&self, f: &mut fmt::Formatter<W>) -> fmt::Result {
        f.write_str(if self.0 { "yes" } else { "no" })
    }
}

// Bytes in a row, two hexadecimal digits each.
#[derive(Clone, Copy)]
pub struct Hex<'a>(pub &'a [u8]);

impl<'a> Display for Hex<'a> {
    fn fmt<W: fmt::Write>(&self, f: &mut fmt::Formatter<W>) -> fmt::Result {
        for b in self.0 {
            write!(f, "{b:02x}")?;
        }
        Ok(())
    }
}

// What there may be, or a word where there is nothing.
#[derive(Clone, Copy)]
pub struct Or<T>(pub Option<T>, pub &'static str);

impl<T: Display> Display for Or<T> {
    fn fmt<W: fmt::Write>(&self, f: &mut fmt::Formatter<W>) -> fmt::Result {
        match &self.0 {
            Some(x) => write!(f, "{x}"),
            None => f.write_str(self.1),
        }
    }
}

// The value of a setting: a whole number, or a coefficient by its bits.
#[derive(Clone, Copy)]
pub struct SettingValue(pub Value);

impl Display for SettingValue {
    fn fmt<W: fmt::Write>(&self, f: &mut fmt::Formatter<W>) -> fmt::Result {
        match self.0 {
            Value::Whole(n) => write!(f, "{n}"),
            Value::Coefficient(x) => write!(f, "{}", Bits(x)),
        }
    }
}
