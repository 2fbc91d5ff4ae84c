// A line read as an entry. Its first word and how many words it has say which entry; the other words are numbers, readings or a value. `None` means that the line is
// no entry.
ghost use Rattle.std.specs.Prelude.{◌≡◌};
ghost use Rattle.std.specs.Option.{unwrap_or};
ghost use Rattle.commands.specs.declared.Entry.TheVariants.{Unknown};
ghost use Rattle.text.specs.Numbers.{number_in};
ghost use Rattle.text.specs.Entries.{is_quiet, alone, readout_asked, question_with, with_one, word_or, with_two, with_three, with_value, with_readings, entry_in, entry_of};

use crate::echoes::MOST_LENT;
use crate::hex::parse_asked;
use crate::numbers::{code_of, number_of, raw_of, reading_of, value_in};
use crate::words::{LONGEST, after_word, word_between};
use commands::{Act, Brought, Command, Entry, LockTurn, Question};
use spelling::same;

// An empty line, or one that begins with `#`, gets no answer.
#[tactic(auto, unfolding(crate::specs::Entries::is_quiet))]
fn is_quiet(line: &[u8]) -> bool
    ensures { result ≡ is_quiet line.now }
{
    line.is_empty() || line[0] == b'#'
}

// ---- a word alone, and a word with one, two or three numbers: a row for each. `parse` has hexadecimal digits in the place of a number

#[tactic(auto, unfolding(crate::specs::Entries::alone))]
fn alone(w: &[u8]) -> Option<Entry>
    ensures { unwrap_or result Unknown ≡ alone w.now }
{
    if same(w, b"report") {
        Some(Entry::Put(Command::Ask(Question::Report)))
    } else if same(w, b"clear") {
        Some(Entry::Put(Command::Clear))
    } else if same(w, b"outputs") {
        Some(Entry::Put(Command::Ask(Question::Outputs)))
    } else {
        None
    }
}

// The bench has no longer buffer to lend.
#[tactic(auto, unfolding(crate::specs::Entries::readout_asked))]
fn readout_asked(n: u64) -> Option<Entry>
    ensures { unwrap_or result Unknown ≡ readout_asked n }
{
    if n <= MOST_LENT as u64 {
        Some(Entry::Put(Command::Ask(Question::Readout(n))))
    } else {
        None
    }
}

#[tactic(auto, unfolding(crate::specs::Entries::question_with))]
fn question_with(w: &[u8], n: u64) -> Option<Entry>
    ensures { unwrap_or result Unknown ≡ question_with w.now n }
{
    if same(w, b"archive") {
        Some(Entry::Put(Command::Ask(Question::Archive(n))))
    } else if same(w, b"log") {
        Some(Entry::Put(Command::Ask(Question::Log(n))))
    } else if same(w, b"audit") {
        Some(Entry::Put(Command::Ask(Question::Audit(n))))
    } else if same(w, b"readout") {
        readout_asked(n)
    } else if same(w, b"last") {
        Some(Entry::Put(Command::Ask(Question::Last(n))))
    } else {
        None
    }
}

#[tactic(auto, unfolding(crate::specs::Entries::with_one))]
fn with_one(w: &[u8], n: u64) -> Option<Entry>
    ensures { unwrap_or result Unknown ≡ with_one w.now n }
{
    if same(w, b"begin") {
        Some(Entry::Put(Command::Call(n, Act::Begin)))
    } else if same(w, b"commit") {
        Some(Entry::Put(Command::Commit(n)))
    } else if same(w, b"abandon") {
        Some(Entry::Put(Command::Call(n, Act::Abandon)))
    } else if same(w, b"shut") {
        Some(Entry::Put(Command::Turn(LockTurn::Shut(n))))
    } else if same(w, b"tick") {
        Some(Entry::Put(Command::Tick(n)))
    } else {
        question_with(w, n)
    }
}

#[tactic(auto, unfolding(crate::specs::Entries::word_or, crate::specs::Entries::one_or))]
fn with_word(w: &[u8], x: &[u8]) -> Option<Entry>
    ensures { unwrap_or result Unknown ≡ word_or w.now (number_in 10 x.now) x.now }
{
    if same(w, b"parse") {
        Some(parse_asked(x))
    } else {
        with_one(w, number_of(x)?)
    }
}

#[tactic(auto, unfolding(crate::specs::Entries::with_two, crate::specs::Entries::open_by))]
fn with_two(w: &[u8], a: u64, b: u64) -> Option<Entry>
    ensures { unwrap_or result Unknown ≡ with_two w.now a b }
{
    if same(w, b"read") {
        Some(Entry::Put(Command::Call(a, Act::Read(b))))
    } else if same(w, b"open") {
        Some(Entry::Put(Command::Turn(LockTurn::Open(a, code_of(b)?))))
    } else {
        None
    }
}

#[tactic(auto, unfolding(crate::specs::Entries::with_three, crate::specs::Entries::start_by))]
fn with_three(w: &[u8], time: u64, two: u64, three: u64) -> Option<Entry>
    ensures { unwrap_or result Unknown ≡ with_three w.now time two three }
{
    if same(w, b"start") {
        Some(Entry::Start {
            time,
            supcode: code_of(two)?,
            custcode: code_of(three)?,
        })
    } else {
        None
    }
}

// ---- two numbers and a value; two numbers and three readings

#[tactic(auto, unfolding(crate::specs::Entries::with_value))]
fn with_value(w: &[u8], a: u64, b: u64, v: settings::Value) -> Option<Entry>
    ensures { unwrap_or result Unknown ≡ with_value w.now a b v }
{
    if same(w, b"write") {
        Some(Entry::Put(Command::Call(a, Act::Write(b, v))))
    } else {
        None
    }
}

#[tactic(auto, unfolding(crate::specs::Entries::with_readings))]
fn with_readings(w: &[u8], brought: Brought) -> Option<Entry>
    ensures { unwrap_or result Unknown ≡ with_readings w.now brought }
{
    if same(w, b"cycle") {
        Some(Entry::Put(Command::Cycle(brought)))
    } else {
        None
    }
}

// ---- the line

// By the number of its words: one to six.
#[tactic(auto, unfolding(crate::specs::Entries::entry_in, crate::specs::Entries::two_or, crate::specs::Entries::three_or, crate::specs::Entries::value_or, crate::specs::Entries::readings_or, crate::specs::Words::word, crate::specs::Words::no_word, crate::specs::Words::place))]
fn entry_in(line: &[u8]) -> Option<Entry>
    ensures { unwrap_or result Unknown ≡ entry_in line.now }
{
    let first = after_word(line, 0);
    let w = word_between(line, 0, first);
    if line.len() < first {
        return alone(w);
    }
    let second = after_word(line, first);
    let a = word_between(line, first, second);
    if line.len() < second {
        return with_word(w, a);
    }
    let third = after_word(line, second);
    let b = word_between(line, second, third);
    if line.len() < third {
        return with_two(w, number_of(a)?, number_of(b)?);
    }
    let fourth = after_word(line, third);
    let c = word_between(line, third, fourth);
    if line.len() < fourth {
        return with_three(w, number_of(a)?, number_of(b)?, number_of(c)?);
    }
    let fifth = after_word(line, fourth);
    let d = word_between(line, fourth, fifth);
    if line.len() < fifth {
        return with_value(w, number_of(a)?, number_of(b)?, value_in(c, d)?);
    }
    let sixth = after_word(line, fifth);
    let e = word_between(line, fifth, sixth);
    if line.len() < sixth {
        let brought = Brought {
            time: number_of(a)?,
            n: number_of(b)?,
            raw: raw_of(reading_of(c))?,
            pressure: reading_of(d)?,
            k: reading_of(e)?,
        };
        return with_readings(w, brought);
    }
    None
}

#[tactic(auto, unfolding(crate::specs::Entries::entry_of))]
pub fn entry_of(line: &[u8]) -> Entry
    ensures { result ≡ entry_of line.now }
{
    if is_quiet(line) {
        return Entry::Nothing;
    }
    if LONGEST < line.len() {
        return Entry::Unknown;
    }
    entry_in(line).unwrap_or(Entry::Unknown)
}
