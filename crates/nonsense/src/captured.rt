// Captured messages put to the reader: whole ones, too short and too long, with a byte changed and with two bytes exchanged. Exchanged bytes leave the check character right.
use message::Values;
use print::Out;
use reader::Unread;
use std::fmt::Display;
use std::io::Write;
use std::{fmt, io};

// A message and a line more.
const ROOM: usize = 181;

// What the reader says: 0 and the six values, or the number of the refusal.
#[derive(Clone, Copy)]
struct Said(Result<Values, Unread>);

impl Display for Said {
    fn fmt<W: fmt::Write>(&self, f: &mut fmt::Formatter<W>) -> fmt::Result {
        match self.0 {
            Ok(v) => write!(
                f,
                "0 {} {} {} {} {} {}",
                v.vb, v.vbd, v.vbt, v.vm, v.vmd, v.vmt
            ),
            Err(unread) => write!(f, "{}", unread.number()),
        }
    }
}

// VbT is not the sum of its parts.
const VALUES: Values = Values {
    vb: 1_863,
    vbd: 931,
    vbt: 2_795,
    vm: 123_456_789_012,
    vmd: 999_999_999_999,
    vmt: 0,
};

fn captured() -> [u8; message::SIZE] {
    let mut bytes = [0; message::SIZE];
    message::write(VALUES, &mut bytes);
    bytes
}

fn lengths(out: &mut Out) -> io::Result<()> {
    let mut bytes = [0x55; ROOM];
    message::write(VALUES, &mut bytes);
    for n in [0, 1, 2, 154, 155, 156, 157, 158, ROOM] {
        let first = &bytes[..n.min(ROOM)];
        writeln!(out, "  first {n}: {}", Said(reader::parse(first)))?;
    }
    Ok(())
}

// A place, and the byte that comes to stand there.
const CHANGES: [(usize, u8); 23] = [
    // What stands before the digits of the first line, a digit that is none, and what stands behind them.
    (0, 3),
    (1, b'4'),
    (2, b'.'),
    (5, b'1'),
    (6, b'['),
    (7, b' '),
    (7, b'/'),
    (7, b':'),
    (7, 0),
    (7, 0xb0),
    (15, b'a'),
    (16, b','),
    (19, b')'),
    (21, b'M'),
    (22, b'2'),
    (24, b'\n'),
    (25, b'\r'),
    // The end of the message, and its check character.
    (151, b'?'),
    (154, 2),
    (155, 0),
    (155, 0xff),
    (155, b'2'),
    (155, b'R'),
];

fn changes(out: &mut Out) -> io::Result<()> {
    for (i, b) in CHANGES {
        let mut bytes = captured();
        ground::put(&mut bytes, i, b);
        writeln!(out, "  byte {i} {b}: {}", Said(reader::parse(&bytes)))?;
    }
    Ok(())
}

// CR LF; the point moved either way; two digits; two addresses; the first byte with the last.
const EXCHANGES: [(usize, usize); 8] = [
    (24, 25),
    (152, 153),
    (15, 16),
    (16, 17),
    (15, 17),
    (5, 30),
    (1, 76),
    (0, 155),
];

fn exchanges(out: &mut Out) -> io::Result<()> {
    for (i, j) in EXCHANGES {
        let mut bytes = captured();
        if i < bytes.len() && j < bytes.len() {
            bytes.swap(i, j);
        }
        writeln!(out, "  exchanged {i} {j}: {}", Said(reader::parse(&bytes)))?;
    }
    Ok(())
}

pub fn run(out: &mut Out) -> io::Result<()> {
    writeln!(out, "captured messages")?;
    lengths(out)?;
    changes(out)?;
    exchanges(out)
}
