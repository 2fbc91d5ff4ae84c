// The readout read back: a message of 156 bytes into its six values in litres. It is compared with what `message::write` writes for the values that its digits spell, so
// that the form of a message stands in one place.
#![tactic(auto)]

ghost use Rattle.std.specs.Prelude.{◌≡◌, ◌≤◌, ◌<◌, length, replicate};
ghost use Rattle.message.specs.Message.{size};
ghost use Rattle.reader.specs.Reader.{number_of, decimal_in, litres_on, values_on, parsed};

use message::Values;

// Why bytes are refused.
#[derive(Clone, Copy, PartialEq, Eq)]
pub enum Unread {
    // Not of the form of a message, its last byte aside.
    NotAMessage,
    // The form is right, and the check character is wrong.
    WrongCheck,
}

impl Unread {
    // The number on the fault card. The reader alone gives these two.
    pub fn number(self) -> u64
        ensures { result ≡ number_of self }
    {
        match self {
            Unread::NotAMessage => 17,
            Unread::WrongCheck => 18,
        }
    }
}

// The check stands last.
const CHECK: usize = message::SIZE - 1;

// Where the first digit of the first line stands, and how many bytes a line has.

const FIRST_DIGIT: usize = 7;

const LINE_LENGTH: usize = 25;

// The number that the digits of a part spell. A byte that is no digit counts something too: that it is none shows when the message is compared.
#[tactic(auto, using(spelling::proofs::Spells::no_more_than, crate::proofs::Digits::none_yet, crate::proofs::Digits::digit_more, crate::proofs::Digits::all_read_lem, crate::proofs::Digits::small))]
fn number(part: &[u8]) -> u64
    requires { length part.now ≤ 12 }
    ensures { result ≡ decimal_in part.now }
{
    let mut value = 0;
    for &b in part {
        value = 10 * value + spelling::digit_of(b);
    }
    value
}

// What line k says, counted from 0: nine digits of cubic metres, and three of litres behind the point.
#[tactic(auto, using(crate::proofs::Places::nine_small, crate::proofs::Places::three_small, crate::proofs::Places::litres_is))]
fn litres_on(bytes: &[u8], k: usize) -> u64
    requires { (size ≤ length bytes.now) × (k < 6) }
    ensures { result ≡ litres_on k bytes.now }
{
    let nine = FIRST_DIGIT + LINE_LENGTH * k;
    let point = nine + 9;
    let three = point + 1;
    let end = three + 3;
    1000 * number(&bytes[nine..point]) + number(&bytes[three..end])
}

#[tactic(auto, unfolding(crate::specs::Reader::values_on))]
fn values_on(bytes: &[u8]) -> Values
    requires { size ≤ length bytes.now }
    ensures { result ≡ values_on bytes.now }
{
    Values {
        vb: litres_on(bytes, 0),
        vbd: litres_on(bytes, 1),
        vbt: litres_on(bytes, 2),
        vm: litres_on(bytes, 3),
        vmd: litres_on(bytes, 4),
        vmt: litres_on(bytes, 5),
    }
}

// Reads any bytes. If some values have this message, they are those that its digits spell; so it is enough to compare with the message of these. The form comes before
// the check.
#[tactic(auto, using(crate::proofs::Compared::other_length))]
pub fn parse(bytes: &[u8]) -> Result<Values, Unread>
    ensures { result ≡ parsed bytes.now }
{
    if bytes.len() != message::SIZE {
        return Err(Unread::NotAMessage);
    }
    let values = values_on(bytes);
    let mut expected = [0; message::SIZE];
    message::write(values, &mut expected);
    if bytes[0..CHECK] != expected[0..CHECK] {
        return Err(Unread::NotAMessage);
    }
    if bytes[CHECK] != expected[CHECK] {
        return Err(Unread::WrongCheck);
    }
    Ok(values)
}
