// The data message of a readout: six values in litres as 156 bytes, put into a buffer that the caller lends. Each byte is put in its place once. The check is taken
// from the bytes as they stand.
#![tactic(auto)]

ghost use Rattle.std.specs.Prelude.{◌≡◌, [], ◌∷◌, length};
ghost use Rattle.spelling.specs.Spelling.{digits};
ghost use Rattle.spelling.specs.Cursor.{HasRoom, Appends};
ghost use Rattle.message.specs.Message.{line, body, xor_of, message, written};

use spelling::cursor::Cursor;

// Litres, in the order of the message's lines. A value has room below 10^12; of a larger one the last twelve digits are written.
#[derive(Clone, Copy, PartialEq, Eq)]
pub struct Values {
    pub vb: u64,
    pub vbd: u64,
    pub vbt: u64,
    pub vm: u64,
    pub vmd: u64,
    pub vmt: u64,
}

// How many bytes the message has.
pub const SIZE: usize = 156;

const STX: u8 = 2;

// The addresses, as the manual numbers the six counters.

pub const VB: [u8; 5] = *b"2:300";

pub const VBD: [u8; 5] = *b"2:301";

pub const VBT: [u8; 5] = *b"2:302";

pub const VM: [u8; 5] = *b"4:300";

pub const VMD: [u8; 5] = *b"4:301";

pub const VMT: [u8; 5] = *b"4:302";

// The base of the digits.
const TEN: u64 = 10;

// What is put at the place of a cursor that has the room.
// Stays: these three stand here and in text. A method that another crate calls asks nothing of its caller; here the room is known.

fn put_byte(cursor: &mut Cursor<'_>, b: u8)
    requires { HasRoom 1 cursor.old }
    ensures { Appends 1 cursor.old cursor.new (b ∷ []) }
{
    cursor.put_byte(b);
}

fn put_text(cursor: &mut Cursor<'_>, text: &[u8])
    requires { HasRoom (length text.now) cursor.old }
    ensures { Appends (length text.now) cursor.old cursor.new text.now }
{
    cursor.put_text(text);
}

fn put_digits(cursor: &mut Cursor<'_>, k: usize, n: u64)
    requires { HasRoom k cursor.old }
    ensures { Appends k cursor.old cursor.new (digits 10 k n) }
{
    cursor.put_digits(TEN, k, n);
}

// A line: the address, and the value in nine digits, a point and three decimals.
fn put_line(cursor: &mut Cursor<'_>, address: [u8; 5], litres: u64)
    requires { HasRoom 25 cursor.old }
    ensures { Appends 25 cursor.old cursor.new (line address litres) }
{
    put_text(cursor, &address);
    put_byte(cursor, b'(');
    put_digits(cursor, 9, litres / 1000);
    put_byte(cursor, b'.');
    put_digits(cursor, 3, litres);
    put_text(cursor, b"*m3)\r\n");
}

// The six lines, and what ends the message before its check.
fn put_body(cursor: &mut Cursor<'_>, v: Values)
    requires { HasRoom 154 cursor.old }
    ensures { Appends 154 cursor.old cursor.new (body v) }
{
    put_line(cursor, VB, v.vb);
    put_line(cursor, VBD, v.vbd);
    put_line(cursor, VBT, v.vbt);
    put_line(cursor, VM, v.vm);
    put_line(cursor, VMD, v.vmd);
    put_line(cursor, VMT, v.vmt);
    put_text(cursor, b"!\r\n\x03");
}

// The exclusive-or of all bytes of a part.
fn xor_of(part: &[u8]) -> u8
    ensures { result ≡ xor_of part.now }
{
    part.iter().fold(0, |sum, b| sum ^ *b)
}

fn put_message(cursor: &mut Cursor<'_>, v: Values)
    requires { HasRoom 156 cursor.old }
    ensures { Appends 156 cursor.old cursor.new (message v) }
{
    put_byte(cursor, STX);
    let start = cursor.at;
    put_body(cursor, v);
    let check = xor_of(cursor.put_since(start));
    put_byte(cursor, check);
}

// Writes the message at the front of a buffer. Bytes past it stay, and so does a buffer that is too short.
#[tactic(auto, using(crate::proofs::Whole::in_buffer, crate::proofs::Whole::too_short))]
pub fn write(values: Values, buffer: &mut [u8])
    ensures { buffer.new ≡ written values buffer.old }
{
    if SIZE <= buffer.len() {
        put_message(&mut Cursor { out: buffer, at: 0 }, values);
    }
}
