// A line and its words. Words are separated by single spaces, so a double space, or one at either end, makes an empty word.
ghost use Rattle.std.specs.Prelude.{◌≡◌};
ghost use Rattle.text.specs.Words.{first_of, after_word, word_between, kept_of, Kept};

// What ends a line.
pub const LINE_FEED: u8 = b'\n';

// A longer line is no command.
pub const LONGEST: usize = 500;

// How many bytes come before the first b; all of them if there is no b.
#[tactic(auto, using(crate::proofs::Bytes::first_found))]
pub fn first_of(s: &[u8], b: u8) -> usize
    ensures { result ≡ first_of b s.now }
{
    s.iter().position(|x| *x == b).unwrap_or(s.len())
}

// Where the word after the one at this place begins. Past the end of the line the place stays as it is.
#[tactic(auto, using(crate::proofs::Bytes::within, crate::proofs::Bytes::the_rest), unfolding(crate::specs::Words::after_word))]
pub fn after_word(line: &[u8], at: usize) -> usize
    ensures { result ≡ after_word line.now at }
{
    if line.len() < at {
        return at;
    }
    at + first_of(&line[at..], b' ') + 1
}

// The word at one place. It ends one byte before the place of the next word.
#[tactic(auto, unfolding(crate::specs::Words::word_between))]
pub fn word_between(line: &[u8], at: usize, next: usize) -> &[u8]
    ensures { result.now ≡ word_between line.now at next }
{
    let end = next.saturating_sub(1).min(line.len());
    line.get(at..end).unwrap_or(&[])
}

// How much of an unfinished line is kept: one byte more than a command may have, so that a line that is too long stays too long.
const KEPT: usize = LONGEST + 1;

#[tactic(auto, unfolding(crate::specs::Words::kept_of))]
fn kept_of(n: usize) -> usize
    ensures { result ≡ kept_of n }
{
    n.min(KEPT)
}

// Moves the bytes from `from` up to `to` to the front, but at most KEPT of them, and answers how many.
#[tactic(auto, using(crate::proofs::Bytes::too_short, crate::proofs::Bytes::none_left, crate::proofs::Bytes::kept_few))]
pub fn keep(input: &mut [u8], from: usize, to: usize) -> usize
    ensures { Kept input.old input.new from to result }
{
    if input.len() < to || to < from {
        return 0;
    }
    let n = kept_of(to - from);
    input.copy_within(from..from + n, 0);
    n
}
