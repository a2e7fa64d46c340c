// The refusals, by the names of specs/RefusalNumbers.antt, and where one stands.
ghost use Rattle.std.specs.Prelude.{◌≡◌, ◌++◌, Some, codes, decimal};
ghost use Rattle.tree.specs.Refusing.{refusal_number};

use std::fmt;

// What is refused: the rows of the table of refusals, each with its number.
#[derive(Clone, Copy, Debug, PartialEq, Eq)]
pub enum Refusal {
    // The expression has no bytes.
    ExpressionEmpty = 1,
    // It has more bytes than an expression may have.
    ExpressionTooLong = 2,
    // An operand is due, and a `|`, `)`, a sign that follows its operand, or the end stands there.
    OperandMissing = 3,
    // The end comes after an operand, with a group open.
    GroupLeftOpen = 4,
    // A `)` after an operand, with no group open.
    ClosingWithoutGroup = 5,
    // A `(` would open one group more than may be open at once.
    TooManyGroups = 6,
    // A `\` is last, or not before a sign.
    BackslashBeforeNoSign = 7,
    // The cut has more pieces than a good list may have.
    TooManyPieces = 8,
    // The record buffer is shorter than the records.
    BufferTooShort = 9,
    // A record list is not good.
    ListNotGood = 10,
    // The text has more bytes than a text may have.
    TextTooLong = 11,
    // Fewer words are lent than there are pieces.
    TooFewWords = 12,
    // A bit past the last state is set, or the two bits of a shared state differ.
    WordsNotMarks = 13,
    // A class is not of its form, or a `]` stands outside a class.
    ClassFaulty = 14,
    // The class buffer is shorter than the class records.
    ClassBufferTooShort = 15,
    // A count is not of its form, or a `}` stands outside a count.
    CountFaulty = 16,
    // The tree has more nodes than a tree may have.
    TooManyNodes = 17,
    // A table of steps has fewer entries than those that say where its columns begin.
    TableTooShort = 28,
}

impl Refusal {
    // Its number in the table.
    pub fn number(self) -> u8
        ensures { result ≡ refusal_number self }
    {
        self as u8
    }
}

// A refusal is told by its number.
impl fmt::Display for Refusal {
    ghost output = { λ refusal. Some (decimal (refusal_number refusal)) };

    fn fmt<W: fmt::Write>(&self, f: &mut fmt::Formatter<W>) -> fmt::Result {
        let number = self.number();
        write!(f, "{number}")
    }
}

// A refusal of an expression: what is refused, and the place.
#[derive(Clone, Copy, Debug, PartialEq, Eq)]
pub struct Refused {
    pub refusal: Refusal,
    pub place: usize,
}

impl fmt::Display for Refused {
    ghost output = { λ refused. Some (codes "refused " ++ decimal (refusal_number refused.refusal) ++ codes " at "
        ++ decimal refused.place) };

    fn fmt<W: fmt::Write>(&self, f: &mut fmt::Formatter<W>) -> fmt::Result {
        let refusal = self.refusal;
        let place = self.place;
        write!(f, "refused {refusal} at {place}")
    }
}
