// A word of hexadecimal digits, two a byte: the bytes are handed to the reader of messages.
ghost use Rattle.std.specs.Prelude.{◌≡◌, true, ◌++◌, ◌+◌, ◌*◌, ◌/◌, ◌≤◌, ◌<◌, length, drop};
ghost use Rattle.ground.specs.Below.{all_below};
ghost use Rattle.spelling.specs.Spelling.{digit_of};
ghost use Rattle.reader.specs.Reader.{parsed};
ghost use Rattle.text.specs.Numbers.{digit_at};
ghost use Rattle.text.specs.Hex.{is_hexed, unhexed, parse_asked};

use crate::words::LONGEST;
use commands::Entry;
use message::Values;
use reader::Unread;
use spelling::digit_of;

const BASE: u64 = 16;

// Room for the bytes of the longest word.
const MOST: usize = LONGEST / 2;

#[tactic(auto, using(crate::proofs::Digits::digits_all))]
fn all_digits(w: &[u8]) -> bool
    ensures { result ≡ all_below (digit_at 16 w.now) (length w.now) }
{
    w.iter().all(|b| digit_of(*b) < BASE)
}

// At least two digits, and an even number of them.
#[tactic(auto, unfolding(crate::specs::Hex::is_hexed))]
fn is_hexed(w: &[u8]) -> bool
    ensures { result ≡ is_hexed w.now }
{
    !w.is_empty() && w.len() % 2 == 0 && all_digits(w)
}

fn byte_of(a: u8, b: u8) -> u8
    requires { (digit_of a < 16) × (digit_of b < 16) }
    ensures { result ≡ 16 * digit_of a + digit_of b }
{
    (BASE * digit_of(a) + digit_of(b)) as u8
}

// Puts the bytes at the front.
#[tactic(auto, using(crate::proofs::Unhexed::each_digit, crate::proofs::Unhexed::all_put))]
fn unhex(w: &[u8], out: &mut [u8])
    requires { (all_below (digit_at 16 w.now) (length w.now) ≡ true) × (length w.now / 2 ≤ length out.old) }
    ensures { out.new ≡ unhexed w.now ++ drop (length w.now / 2) out.old }
{
    let (pairs, _) = w.as_chunks::<2>();
    for (i, pair) in pairs.iter().enumerate() {
        out[i] = byte_of(pair[0], pair[1]);
    }
}

// What the reader says of these bytes. No line has more than there is room for; so many would be no message.
#[tactic(auto, using(crate::proofs::Unhexed::too_many, crate::proofs::Unhexed::at_front))]
fn parse(w: &[u8]) -> Result<Values, Unread>
    requires { all_below (digit_at 16 w.now) (length w.now) ≡ true }
    ensures { result ≡ parsed (unhexed w.now) }
{
    let n = w.len() / 2;
    if MOST < n {
        return Err(Unread::NotAMessage);
    }
    let mut buffer = [0; MOST];
    unhex(w, &mut buffer);
    reader::parse(&buffer[0..n])
}

// A refusal goes into the entry by its number.
#[tactic(auto, using(crate::proofs::Unhexed::hexed_digits), unfolding(crate::specs::Hex::parse_asked, crate::specs::Echoes::by_number))]
pub fn parse_asked(w: &[u8]) -> Entry
    ensures { result ≡ parse_asked w.now }
{
    if is_hexed(w) {
        Entry::Parse(parse(w).map_err(|unread| unread.number()))
    } else {
        Entry::Unknown
    }
}
