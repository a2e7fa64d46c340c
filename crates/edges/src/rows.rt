// The rows of the table, a case each.
use crate::calls;
use fields::{MOST_BYTES, MOST_FIELDS, Row, number};
use std::io;
use tree::limits::MOST_PIECES;

// What a row calls by: an expression of the first syntax, one of the second, or a list.
#[derive(Clone, Copy, PartialEq, Eq)]
pub enum By {
    First,
    Second,
    List,
}

impl From<u8> for By {
    fn from(letter: u8) -> By {
        match letter {
            b'1' => By::First,
            b'2' => By::Second,
            _ => By::List,
        }
    }
}

// What a row calls: reading, or by a list a match, a search, its bytes, a walk from a start, or a step.
#[derive(Clone, Copy, PartialEq, Eq)]
pub enum Call {
    Read,
    Match,
    Search,
    Bytes,
    Walk,
    Step,
}

impl From<u8> for Call {
    fn from(letter: u8) -> Call {
        match letter {
            b'r' => Call::Read,
            b'm' => Call::Match,
            b's' => Call::Search,
            b'b' => Call::Bytes,
            b'w' => Call::Walk,
            _ => Call::Step,
        }
    }
}

// The numbers of a call by words: how many words are lent, how many are shown, and a word for each piece.
pub const MOST_NUMBERS: usize = MOST_PIECES + 2;

// A case: what is called, and what is lent.
#[derive(Clone, Copy)]
pub struct Case<'a> {
    pub by: By,
    pub call: Call,
    // The expression or the list.
    pub first: &'a [u8],
    pub text: &'a [u8],
    pub numbers: [u64; MOST_NUMBERS],
    // The classes of a list.
    pub classes: &'a [u8],
}

// The numbers of a field, with a space between them, and 0 for those that it does not have.
fn numbers_of(field: &[u8]) -> [u64; MOST_NUMBERS] {
    let mut numbers = [0; MOST_NUMBERS];
    for (place, digits) in numbers.iter_mut().zip(field.split(|byte| *byte == b' ')) {
        *place = number(digits);
    }
    numbers
}

// Tries the case of a line. Its fields: by what it calls, and the letter of the call; what is printed first; the expression or
// the list; the text; numbers; the classes of a list.
fn try_case(rt: &impl Print, line: &[u8]) -> io::Result<()> {
    let mut bytes = [0u8; MOST_BYTES];
    let mut ends = [0usize; MOST_FIELDS];
    let row = Row::parse(line, &mut bytes, &mut ends);
    let [by, call, ..] = row.field(0) else {
        return Ok(());
    };
    let case = Case {
        by: By::from(*by),
        call: Call::from(*call),
        first: row.field(2),
        text: row.field(3),
        numbers: numbers_of(row.field(4)),
        classes: row.field(5),
    };
    rt.write_all(row.field(1))?;
    calls::call(rt, &case)?;
    rt.write_all(b"\n")
}

// Each line's case.
pub fn each_row(rt: &impl Print, input: &[u8]) -> io::Result<()> {
    for line in input.split_inclusive(|byte| *byte == b'\n') {
        try_case(rt, line.strip_suffix(b"\n").unwrap_or(line))?;
    }
    Ok(())
}
