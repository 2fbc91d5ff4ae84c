// The office's reader: takes a captured message from standard input, raw, and prints its six values in litres or the number that it is refused with. A read or a write
// that fails is reported on standard error, and then no values are printed.
#![tactic(auto)]

ghost use Rattle.std.specs.Prelude.{◌≡◌, ◌≤◌, length, IfOk};
ghost use Rattle.spelling.specs.Spelling.{Put};
ghost use Rattle.reader.specs.Reader.{parsed};
ghost use Rattle.text.specs.Echoes.{by_number, office_for};

use std::io;
use std::io::Read;

// One byte more than a message has is enough to know that it is none (`front_decides` in crates/reader/proofs/Laws.antt). So no more is read.
const MOST: usize = message::SIZE + 1;

// Reads until the buffer is full or the input ends, and gives how many bytes are at its front.
fn capture(rt: &HostRuntime, input: &mut [u8]) -> io::Result<usize>
    ensures { IfOk result (λ n. n ≤ length input.new) }
{
    let mut held = 0;
    // Stays: a `while` that counts no index: each read says where the next one begins.
    while held < input.len() {
        match rt.stdin().read(&mut input[held..])? {
            0 => break,
            n => held += n,
        }
    }
    Ok(held)
}

// Puts the answer at the front of `out`.
#[tactic(auto, unfolding(text::specs::Echoes::by_number))]
fn answer(captured: &[u8], out: &mut [u8]) -> usize
    ensures { Put 422 out.old out.new 0 result (office_for out.old (by_number (parsed captured.now))) }
{
    let read = reader::parse(captured).map_err(|unread| unread.number());
    text::echoes::office_line(out, read)
}

fn main(rt: HostRuntime) {
    let mut input = [0; MOST];
    let mut out = [0; text::echoes::ROOM];
    let Ok(n) = capture(&rt, &mut input) else {
        let _ = rt
            .stderr()
            .write_all(b"office: the message could not be read\n");
        return;
    };
    let used = answer(&input[..n], &mut out);
    if rt.stdout().write_all(&out[..used]).is_err() {
        let _ = rt
            .stderr()
            .write_all(b"office: the answer could not be written\n");
    }
}
