// Lines by the block: the whole lines of an input are put to a desk, and what is said to them is written as lines.
#![tactic(auto)]

ghost use Rattle.std.specs.Prelude.{◌≡◌, ◌++◌, ◌≤◌, length, drop};
ghost use Rattle.desk.specs.Desk.{block};
ghost use Rattle.lines.specs.Lines.{line_end, inputs_in, echo_lines, room, Fronted, answers_of, answer_text};

use commands::{Echo, Entry};
use desk::Desk;
use text::words::LINE_FEED;

// Room for a block of the longest lines.
pub const ROOM: usize = text::echoes::ROOM * desk::BLOCK;

// Entries for the desk, and how many bytes of the input their lines took.
// Stays: a count beside an array, since memory is fixed (a project rule) and `desk::serve` takes both.
#[derive(Clone, Copy)]
pub struct Inputs {
    pub count: usize,
    pub inputs: [Entry; desk::BLOCK],
    pub at: usize,
}

// The desk after some lines, how many bytes of the input they took, and how many bytes of answers were written.
#[derive(Clone, Copy)]
pub struct Answers {
    pub desk: Desk,
    pub at: usize,
    pub used: usize,
}

// How many bytes come before the first line feed, if there is one.
pub fn line_end(input: &[u8]) -> Option<usize>
    ensures { result ≡ line_end input.now }
{
    input.iter().position(|b| *b == LINE_FEED)
}

// The entries of the first whole lines of the input, in order; at most a block of them.
#[tactic(auto, using(crate::proofs::Cuts::none_taken))]
pub fn inputs_in(input: &[u8]) -> Inputs
    ensures { result ≡ inputs_in input.now }
{
    let mut inputs = [desk::no_input(); desk::BLOCK];
    let mut at = 0;
    for count in 0..desk::BLOCK {
        let rest = &input[at..];
        let Some(n) = line_end(rest) else {
            return Inputs { count, inputs, at };
        };
        inputs[count] = text::entries::entry_of(&rest[..n]);
        at += n + 1;
    }
    Inputs {
        count: desk::BLOCK,
        inputs,
        at,
    }
}

// Writes a line for each answer, and says how many bytes they take together.
#[tactic(auto, using(crate::proofs::Fronts::all_echoed))]
fn put_echoes(out: &mut [u8], responses: &[Echo]) -> usize
    requires roomy { room ≤ length out.old }
    requires few { length responses.now ≤ block }
    ensures { Fronted out.old out.new (echo_lines responses.now) result }
{
    let mut used = 0;
    for echo in responses {
        used = text::echoes::echo_line(out, used, *echo);
    }
    used
}

// Puts the first whole lines of the input, at most a block, to the desk, and writes the answers at the front of `out`. If `out` has not room for a block of the
// longest lines, nothing is put to the desk: no answer is ever lost.
#[tactic(auto, using(crate::proofs::Cuts::few_inputs))]
pub fn answer(d: Desk, input: &[u8], out: &mut [u8]) -> Answers
    ensures { (result ≡ answers_of d input.now out.old)
        × (out.new ≡ answer_text d input.now out.old ++ drop result.used out.old) }
{
    if out.len() < ROOM {
        return Answers {
            desk: d,
            at: 0,
            used: 0,
        };
    }
    let asked = inputs_in(input);
    let served = desk::serve(d, asked.inputs, asked.count);
    let used = put_echoes(out, &served.responses[..asked.count]);
    Answers {
        desk: served.desk,
        at: asked.at,
        used,
    }
}
