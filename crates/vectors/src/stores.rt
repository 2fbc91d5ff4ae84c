// The stores: what a number of lines written from fresh gives, where a line stands, and which states of a book are whole.
use print::{Or, Out, YesNo};
use ring::{ARCHIVE_LINES, AUDIT_LINES, AUDIT_STEP, Book, LOG_LINES, LOG_STEP, Ring};
use std::io;
use std::io::Write;

const FRESH: Book = Book {
    ring: Ring { held: 0, next: 0 },
    number: 0,
};

// All the lines, some at a time.
fn written(size: u64, lines: u64, step: u64) -> Book {
    if step == 0 {
        return FRESH.advanced(size, lines);
    }
    let mut book = FRESH;
    for _ in 0..lines / step {
        book = book.advanced(size, step);
    }
    book.advanced(size, lines % step)
}

fn book(out: &mut Out, size: u64, lines: u64, step: u64) -> io::Result<()> {
    let Book { ring, number } = written(size, lines, step);
    writeln!(
        out,
        "book {size} {lines} {step} = {} {} {number}",
        ring.held, ring.next
    )
}

// As many lines as a store has, one more and one less, and as many as there are numbers: all at once, and then a few at a time.
fn books(out: &mut Out) -> io::Result<()> {
    for (size, one_less, one_more) in [
        (ARCHIVE_LINES, ARCHIVE_LINES - 1, ARCHIVE_LINES + 1),
        (LOG_LINES, LOG_LINES - 1, LOG_LINES + 1),
        (AUDIT_LINES, AUDIT_LINES - 1, AUDIT_LINES + 1),
    ] {
        for lines in [0, 1, one_less, size, one_more, 65_535, 65_536, 65_537] {
            for step in [lines, 1, 2, 3, 4, 5, 6] {
                book(out, size, lines, step)?;
            }
        }
    }
    Ok(())
}

fn places(out: &mut Out) -> io::Result<()> {
    for (size, lines, i) in [
        (ARCHIVE_LINES, 0, 0),
        (ARCHIVE_LINES, 1, 0),
        (ARCHIVE_LINES, 1, 1),
        (ARCHIVE_LINES, 14, 13),
        (ARCHIVE_LINES, 14, 14),
        (ARCHIVE_LINES, 15, 14),
        (ARCHIVE_LINES, 16, 0),
        (ARCHIVE_LINES, 16, 14),
        (ARCHIVE_LINES, 16, 15),
        (ARCHIVE_LINES, 1_199, 0),
        (ARCHIVE_LINES, 1_199, 14),
        (LOG_LINES, 249, 248),
        (LOG_LINES, 249, 249),
        (LOG_LINES, 250, 0),
        (LOG_LINES, 250, 249),
        (LOG_LINES, 250, 250),
        (LOG_LINES, 65_536, 0),
        (LOG_LINES, 65_536, 249),
        (LOG_LINES, 65_537, 123),
        (AUDIT_LINES, 200, 199),
        (AUDIT_LINES, 201, 199),
        (AUDIT_LINES, 201, 200),
        (AUDIT_LINES, 65_535, 0),
        (AUDIT_LINES, 65_537, 199),
        (AUDIT_LINES, 65_537, u64::MAX),
    ] {
        let place = written(size, lines, lines).ring.place_of(size, i);
        writeln!(out, "place {size} {lines} {i} = {}", Or(place, "not-held"))?;
    }
    Ok(())
}

fn wholes(out: &mut Out) -> io::Result<()> {
    for (size, step, held, next, number) in [
        (LOG_LINES, LOG_STEP, 0, 0, 0),
        (LOG_LINES, LOG_STEP, 0, 0, 1),
        (LOG_LINES, LOG_STEP, 249, 249, 249),
        (LOG_LINES, LOG_STEP, 249, 248, 249),
        (LOG_LINES, LOG_STEP, 250, 0, 250),
        (LOG_LINES, LOG_STEP, 250, 0, 249),
        (LOG_LINES, LOG_STEP, 250, 249, 1),
        (LOG_LINES, LOG_STEP, 250, 249, 2),
        (LOG_LINES, LOG_STEP, 250, 250, 250),
        (LOG_LINES, LOG_STEP, 251, 0, 250),
        (AUDIT_LINES, AUDIT_STEP, 199, 199, 199),
        (AUDIT_LINES, AUDIT_STEP, 200, 0, 200),
        (AUDIT_LINES, AUDIT_STEP, 200, 0, 208),
        (AUDIT_LINES, AUDIT_STEP, 200, 0, 204),
        (AUDIT_LINES, AUDIT_STEP, 200, 7, 65_535),
        (AUDIT_LINES, AUDIT_STEP, 200, 199, 0),
    ] {
        let book = Book {
            ring: Ring { held, next },
            number,
        };
        writeln!(
            out,
            "book-whole {size} {held} {next} {number} = {}",
            YesNo(book.is_whole(size, step))
        )?;
    }
    Ok(())
}

fn line_numbers(out: &mut Out) -> io::Result<()> {
    for (first, k) in [
        (0, 0),
        (0, 1),
        (65_535, 0),
        (65_535, 1),
        (65_534, 5),
        (65_535, 65_535),
    ] {
        let book = Book {
            number: first,
            ..FRESH
        };
        writeln!(out, "number {first} {k} = {}", book.line_number(k))?;
    }
    Ok(())
}

pub fn run(out: &mut Out) -> io::Result<()> {
    books(out)?;
    places(out)?;
    wholes(out)?;
    line_numbers(out)
}
