// The window through which the bench sees its input: what was read and is still to be answered.
ghost use Rattle.std.specs.Prelude.{◌≡◌, ◌≤◌, true, length};

use desk::Desk;
use std::io::Read;
use std::{fmt, io};

// Room for a part of the input.
const ROOM: usize = 65536;

// What ended the bench before the input did.
#[derive(Clone, Copy, PartialEq, Eq)]
pub enum Failure {
    Read,
    Write,
}

impl fmt::Display for Failure {
    fn fmt<W: fmt::Write>(&self, f: &mut fmt::Formatter<W>) -> fmt::Result {
        match *self {
            Failure::Read => f.write_str("the input could not be read"),
            Failure::Write => f.write_str("an answer could not be written"),
        }
    }
}

// The bytes from `from` up to `have` are still to be answered. `more` says whether a read may give more.
#[derive(Clone, Copy)]
pub struct Window {
    pub bytes: [u8; ROOM],
    pub from: usize,
    pub have: usize,
    pub more: bool,
    ghost least: { from ≤ have },
    ghost most: { have ≤ length bytes },
}

impl Window {
    ghost use Rattle.bench.specs.Bench.{ReadBehind, Refilled, Stepped};

    pub fn new() -> Window
        ensures { (result.from ≡ 0) × (result.have ≡ 0) × (result.more ≡ true) }
    {
        Window {
            bytes: [0; ROOM],
            from: 0,
            have: 0,
            more: true,
        }
    }

    // Reads once, behind the bytes that are there.
    fn read_more(&mut self, rt: &HostRuntime) -> io::Result<usize>
        ensures { ReadBehind self.old self.new result }
    {
        let n = rt.stdin().read(&mut self.bytes[self.have..])?;
        self.have += n;
        Ok(n)
    }

    // Keeps the unfinished line and reads more behind it. At the end of the input a last line without a line feed is given one. Says whether there is more to answer.
    // If the read fails, that line stays unanswered.
    #[tactic(auto, using(crate::proofs::Parts::refilled, crate::proofs::Parts::feed_behind))]
    fn refill(&mut self, rt: &HostRuntime) -> Result<bool, Failure>
        ensures { Refilled self.old self.new result }
    {
        let held = text::words::keep(&mut self.bytes, self.from, self.have);
        self.from = 0;
        self.have = held;
        let Ok(n) = self.read_more(rt) else {
            return Err(Failure::Read);
        };
        self.more = 0 < n;
        if self.more {
            return Ok(true);
        }
        if held == 0 {
            return Ok(false);
        }
        self.bytes[held] = text::words::LINE_FEED;
        self.have = held + 1;
        Ok(true)
    }

    // Answers the lines that are there and writes the answers. If there is none, reads more, unless the input has ended. Says whether there is more to answer.
    #[tactic(auto, using(lines::proofs::Fronts::answers_within, lines::proofs::Fronts::at_within, crate::proofs::Parts::part_length, crate::proofs::Parts::stepped, crate::proofs::Parts::behind, crate::proofs::Parts::refilled_next))]
    pub fn step(
        &mut self,
        rt: &HostRuntime,
        desk: &mut Desk,
        out: &mut [u8],
    ) -> Result<bool, Failure>
        ensures { Stepped desk.old desk.new self.old self.new out.old out.new result }
    {
        let answers = lines::answer(*desk, &self.bytes[self.from..self.have], out);
        *desk = answers.desk;
        if rt.stdout().write_all(&out[..answers.used]).is_err() {
            return Err(Failure::Write);
        }
        if 0 < answers.at {
            self.from += answers.at;
            return Ok(true);
        }
        if self.more {
            self.refill(rt)
        } else {
            Ok(false)
        }
    }
}
