// What is said, written as a line at the place of a cursor.
ghost use Rattle.std.specs.Prelude.{◌≡◌, [], ◌∷◌, ◌+◌, ◌*◌, ◌≤◌, ◌<◌, min, length, map, ℕ, List};
ghost use Rattle.std.specs.List.{flat_map};
ghost use Rattle.spelling.specs.Spelling.{Put, digits};
ghost use Rattle.spelling.specs.Cursor.{HasRoom, Appends};
ghost use Rattle.text.specs.Echoes.{places, decimal, spaced, flag, signed, bits_of, value_words, joined, archive_words, log_words, audit_words, lamp_words, moment_words, output_words, hexed, most_lent, readout_words, newest_words, last_words, other_words, parsed_text, office_text, office_for, given_words, said_text, echo_text, text_for};

use crate::words::LINE_FEED;
use books::{ArchiveLine, AuditLine, LogLine};
use commands::{Echo, Given, Last, Readout, Reply};
use message::Values;
use outputs::Shown;
use settings::Value;
use spelling::cursor::Cursor;
use state::Moment;

// Room for any line. The longest tells of a readout: a number of at most 20 digits, a space, and two digits for each byte of the longest buffer that is lent.
pub const ROOM: usize = 422;

// The buffer that is lent for a readout: each of its bytes, and the most that it may have.

const UNWRITTEN: u8 = 0xaa;

pub const MOST_LENT: usize = 200;

// ---- what is put at the place of a cursor that has the room

// Stays: these three stand here and in message. A method that another crate calls asks nothing of its caller; here the room is known.
fn put_byte(cursor: &mut Cursor<'_>, b: u8)
    requires { HasRoom 1 cursor.old }
    ensures { Appends 1 cursor.old cursor.new (b ∷ []) }
{
    cursor.put_byte(b);
}

fn put_text(cursor: &mut Cursor<'_>, text: &[u8])
    requires { HasRoom (length text.now) cursor.old }
    ensures { Appends (length text.now) cursor.old cursor.new text.now }
{
    cursor.put_text(text);
}

fn put_digits(cursor: &mut Cursor<'_>, base: u64, k: usize, n: u64)
    requires { HasRoom k cursor.old × (1 < base) × (base ≤ 16) }
    ensures { Appends k cursor.old cursor.new (digits base k n) }
{
    cursor.put_digits(base, k, n);
}

// ---- numbers

// How many decimal digits a number has.
#[tactic(auto, using(crate::proofs::Puts::places_none, crate::proofs::Puts::places_some))]
fn places_of(n: u64) -> usize
    ensures { result ≡ places n }
{
    n.checked_ilog10().unwrap_or(0) as usize + 1
}

#[tactic(auto, using(spelling::proofs::Appended::looser, crate::proofs::Puts::places_most), unfolding(crate::specs::Echoes::decimal))]
fn put_decimal(cursor: &mut Cursor<'_>, n: u64)
    requires { HasRoom 20 cursor.old }
    ensures { Appends 20 cursor.old cursor.new (decimal n) }
{
    put_digits(cursor, 10, places_of(n), n);
}

// 0 for a NaN, which no setting ever is.
#[tactic(auto, unfolding(crate::specs::Echoes::bits_of))]
fn bits_of(f: f64) -> u64
    ensures { result ≡ bits_of f }
{
    if f.is_nan() { 0 } else { f.to_bits() }
}

// ---- words, each after a space

// What is said in words: which, and the most bytes that they and their spaces have.
trait Words: Copy {
    ghost words: { Self → List (List ℕ) };

    ghost most: { ℕ };

    fn put(self, cursor: &mut Cursor<'_>)
        requires { HasRoom most cursor.old }
        ensures { Appends most cursor.old cursor.new (joined (words self)) };
}

impl Words for u64 {
    ghost words = { λ n. decimal n ∷ [] };

    ghost most = { 21 };

    fn put(self, cursor: &mut Cursor<'_>) {
        put_byte(cursor, b' ');
        put_decimal(cursor, self);
    }
}

impl Words for u16 {
    ghost words = { λ n. decimal n ∷ [] };

    ghost most = { 21 };

    fn put(self, cursor: &mut Cursor<'_>) {
        u64::from(self).put(cursor);
    }
}

#[tactic(auto, unfolding(crate::specs::Echoes::flag))]
fn flag_of(on: bool) -> u8
    ensures { result ≡ flag on }
{
    if on { b'1' } else { b'0' }
}

impl Words for bool {
    ghost words = { λ on. (flag on ∷ []) ∷ [] };

    ghost most = { 2 };

    fn put(self, cursor: &mut Cursor<'_>) {
        put_byte(cursor, b' ');
        put_byte(cursor, flag_of(self));
    }
}

fn put_all<W: Words>(cursor: &mut Cursor<'_>, items: &[W])
    requires { HasRoom (length items.now * W.most) cursor.old }
    ensures { Appends (length items.now * W.most) cursor.old cursor.new (joined (flat_map W.words items.now)) }
{
    for &item in items {
        item.put(cursor);
    }
}

fn put_signed(cursor: &mut Cursor<'_>, n: i64)
    requires { HasRoom 22 cursor.old }
    ensures { Appends 22 cursor.old cursor.new (spaced (signed n)) }
{
    put_byte(cursor, b' ');
    if n < 0 {
        put_byte(cursor, b'-');
    }
    put_decimal(cursor, n.unsigned_abs());
}

impl Words for Value {
    ghost words = { value_words };

    ghost most = { 24 };

    fn put(self, cursor: &mut Cursor<'_>) {
        match self {
            Value::Whole(n) => {
                put_text(cursor, b" w");
                put_signed(cursor, n);
            }
            Value::Coefficient(f) => {
                put_text(cursor, b" c ");
                put_digits(cursor, 16, 16, bits_of(f));
            }
        }
    }
}

impl Words for Shown {
    ghost words = { output_words };

    ghost most = { 63 };

    fn put(self, cursor: &mut Cursor<'_>) {
        put_all(
            cursor,
            &[self.account, self.waiting as u64, self.lost as u64],
        );
    }
}

// ---- the words of each kind of line

impl Words for ArchiveLine {
    ghost words = { archive_words };

    ghost most = { 105 };

    fn put(self, cursor: &mut Cursor<'_>) {
        put_all(
            cursor,
            &[self.month, self.vm.0, self.vmd.0, self.vb.0, self.vbd.0],
        );
    }
}

impl Words for LogLine {
    ghost words = { log_words };

    ghost most = { 63 };

    fn put(self, cursor: &mut Cursor<'_>) {
        put_all(cursor, &[self.number as u64, self.time, self.code]);
    }
}

impl Words for AuditLine {
    ghost words = { audit_words };

    ghost most = { 132 };

    fn put(self, cursor: &mut Cursor<'_>) {
        put_all(
            cursor,
            &[self.number as u64, self.time, self.door, self.setting],
        );
        self.old.put(cursor);
        self.new.put(cursor);
    }
}

impl Words for Moment {
    ghost words = { moment_words };

    ghost most = { 165 };

    fn put(self, cursor: &mut Cursor<'_>) {
        let counted = self.counters;
        put_all(
            cursor,
            &[
                self.time,
                counted.vm.0,
                counted.vmd.0,
                counted.vb.0,
                counted.vbd.0,
                counted.vmt.0,
                counted.vbt.0,
            ],
        );
        let alarms = self.alarms;
        let latches = self.latches;
        put_all(
            cursor,
            &[
                alarms.p, alarms.t, alarms.k, latches.p, latches.t, latches.k, self.cal, self.sup,
                self.cust,
            ],
        );
    }
}

// Two digits a byte. The bytes are lent once for the whole part: so no digit asks for the room again.
fn hex_into(out: &mut [u8], at: usize, part: &[u8]) -> usize
    requires { at + length part.now * 2 ≤ length out.old }
    ensures { Put (length part.now * 2) out.old out.new at result (hexed part.now) }
{
    let mut next = at;
    for &b in part {
        let end = next + 2;
        spelling::digits_into(&mut out[next..end], 16, b as u64);
        next = end;
    }
    next
}

fn put_hex(cursor: &mut Cursor<'_>, part: &[u8])
    requires { HasRoom (length part.now * 2) cursor.old }
    ensures { Appends (length part.now * 2) cursor.old cursor.new (hexed part.now) }
{
    cursor.at = hex_into(cursor.out, cursor.at, part);
}

// The whole buffer that is lent, with the message in it.
impl Words for Readout {
    ghost words = { readout_words };

    ghost most = { 401 };

    fn put(self, cursor: &mut Cursor<'_>) {
        let mut buffer = [UNWRITTEN; MOST_LENT];
        let n = self.room.min(MOST_LENT as u64) as usize;
        message::write(self.values, &mut buffer[..n]);
        put_byte(cursor, b' ');
        put_hex(cursor, &buffer[..n]);
    }
}

// A line, or `-`.
impl Words for Option<LogLine> {
    ghost words = { newest_words };

    ghost most = { 63 };

    fn put(self, cursor: &mut Cursor<'_>) {
        match self {
            Some(l) => l.put(cursor),
            None => put_text(cursor, b" -"),
        }
    }
}

impl Words for Last {
    ghost words = { last_words };

    ghost most = { 84 };

    fn put(self, cursor: &mut Cursor<'_>) {
        self.line.put(cursor);
        self.looked.put(cursor);
    }
}

impl Words for Given {
    ghost words = { given_words };

    ghost most = { 401 };

    #[tactic(auto, using(spelling::proofs::Appended::looser, spelling::proofs::Appended::retext, crate::proofs::Puts::given_text, crate::proofs::Puts::none_put), unfolding(crate::specs::Echoes::given_words, crate::specs::Echoes::emitted_words, crate::specs::Echoes::outputs_words))]
    fn put(self, cursor: &mut Cursor<'_>) {
        match self {
            Given::Nothing => {}
            Given::Value(v) => v.put(cursor),
            Given::Report(m) => m.put(cursor),
            Given::Emitted(all) => put_all(cursor, &all),
            Given::Outputs(all) => put_all(cursor, &all),
            Given::Readout(x) => x.put(cursor),
            Given::Archive(l) => l.put(cursor),
            Given::Log(l) => l.put(cursor),
            Given::Audit(l) => l.put(cursor),
            Given::Last(x) => x.put(cursor),
        }
    }
}

// ---- a message that was read

// The values behind the first.
fn put_others(cursor: &mut Cursor<'_>, v: Values)
    requires { HasRoom 105 cursor.old }
    ensures { Appends 105 cursor.old cursor.new (joined (other_words v)) }
{
    put_all(cursor, &[v.vbd, v.vbt, v.vm, v.vmd, v.vmt]);
}

fn parsed_line(cursor: &mut Cursor<'_>, parsed: Result<Values, u64>)
    requires { HasRoom 422 cursor.old }
    ensures { Appends 422 cursor.old cursor.new (parsed_text parsed) }
{
    match parsed {
        Ok(v) => {
            put_byte(cursor, b'0');
            v.vb.put(cursor);
            put_others(cursor, v);
        }
        Err(number) => put_decimal(cursor, number),
    }
    put_byte(cursor, LINE_FEED);
}

fn office_text(cursor: &mut Cursor<'_>, parsed: Result<Values, u64>)
    requires { HasRoom 422 cursor.old }
    ensures { Appends 422 cursor.old cursor.new (office_text parsed) }
{
    match parsed {
        Ok(v) => {
            put_decimal(cursor, v.vb);
            put_others(cursor, v);
        }
        Err(number) => {
            put_text(cursor, b"refused");
            number.put(cursor);
        }
    }
    put_byte(cursor, LINE_FEED);
}

// What the office's program prints, at the front. Puts nothing if there is less than ROOM.
#[tactic(auto, using(crate::proofs::Puts::office_put, crate::proofs::Puts::office_kept))]
pub fn office_line(out: &mut [u8], parsed: Result<Values, u64>) -> usize
    ensures { Put 422 out.old out.new 0 result (office_for out.old parsed) }
{
    if out.len() < ROOM {
        return 0;
    }
    let mut cursor = Cursor { out, at: 0 };
    office_text(&mut cursor, parsed);
    cursor.at
}

// ---- lines

fn said_line(cursor: &mut Cursor<'_>, reply: Reply)
    requires { HasRoom 422 cursor.old }
    ensures { Appends 422 cursor.old cursor.new (said_text reply) }
{
    put_decimal(cursor, reply.number);
    reply.given.put(cursor);
    put_byte(cursor, LINE_FEED);
}

fn put_echo(cursor: &mut Cursor<'_>, echo: Echo)
    requires { HasRoom 422 cursor.old }
    ensures { Appends 422 cursor.old cursor.new (echo_text echo) }
{
    match echo {
        Echo::Nothing => {}
        Echo::Unknown => put_text(cursor, b"?\n"),
        Echo::Said(reply) => said_line(cursor, reply),
        Echo::Parse(parsed) => parsed_line(cursor, parsed),
    }
}

// Puts nothing if there is less than ROOM left.
#[tactic(auto, using(crate::proofs::Puts::echo_kept), unfolding(crate::specs::Echoes::text_for))]
pub fn echo_line(out: &mut [u8], at: usize, echo: Echo) -> usize
    ensures { Put 422 out.old out.new at result (text_for out.old at echo) }
{
    if out.len().saturating_sub(at) < ROOM {
        return at;
    }
    let mut cursor = Cursor { out, at };
    put_echo(&mut cursor, echo);
    cursor.at
}
