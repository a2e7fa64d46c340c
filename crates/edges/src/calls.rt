// The calls: reading in either syntax, and the calls by a list and its classes.
use crate::answers::{say_counted, say_marks, say_matched, say_read, say_searched};
use crate::rows::{By, Call, Case};
use saying::{say_bytes, say_words};
use std::io;
use stepping::inner::Told;
use tree::layout::{CLASS_RECORD_SIZE, RECORD_SIZE};
use tree::limits::{MOST_PIECES, MOST_RECORDS};
use tree::refusal::Refusal;

// The bytes of the longest list, and of its classes.
const LONGEST_LIST: usize = RECORD_SIZE * MOST_RECORDS;

const LONGEST_CLASSES: usize = CLASS_RECORD_SIZE * MOST_RECORDS;

// A list and its classes.
#[derive(Clone, Copy)]
struct Lists<'a> {
    list: &'a [u8],
    classes: &'a [u8],
}

impl<'a> Lists<'a> {
    // Starts, and steps along each byte of the text; answers what the last of these answered.
    fn walk(&self, words: &mut [u64], text: &[u8]) -> Result<Told, Refusal> {
        let mut answer = marks::start(self.list, self.classes, words);
        for byte in text {
            answer = marks::step(self.list, self.classes, words, *byte);
        }
        answer
    }

    // Their bytes.
    fn say(&self, rt: &impl Print) -> io::Result<()> {
        say_bytes(rt, self.list)?;
        if !self.classes.is_empty() {
            rt.print(", classes")?;
            say_bytes(rt, self.classes)?;
        }
        Ok(())
    }
}

// Reads in the first syntax, into so many bytes as the first number says.
fn read_first(rt: &impl Print, case: &Case) -> io::Result<()> {
    let [room, ..] = case.numbers;
    let mut list = [0u8; LONGEST_LIST];
    let size = LONGEST_LIST.min(room as usize);
    say_read(rt, reader::read(case.first, &mut list[..size]))
}

// Reads in the second syntax, into so many bytes as the first number says, and so many for the classes as the second.
fn read_second(rt: &impl Print, case: &Case) -> io::Result<()> {
    let [room, class_room, ..] = case.numbers;
    let mut list = [0u8; LONGEST_LIST];
    let mut classes = [0u8; LONGEST_CLASSES];
    let size = LONGEST_LIST.min(room as usize);
    let class_size = LONGEST_CLASSES.min(class_room as usize);
    let answer = reader::read_second(case.first, &mut list[..size], &mut classes[..class_size]);
    say_counted(rt, answer)
}

// What the start and the steps along a text answer, and the first words then, as many as are shown.
fn say_walk(
    rt: &impl Print,
    case: &Case,
    lists: &Lists,
    words: &mut [u64],
    shown: usize,
) -> io::Result<()> {
    say_marks(rt, lists.walk(words, case.text))?;
    say_words(rt, words, shown)
}

// The words, what a step along `a` from them answers, and the words then.
fn say_step(rt: &impl Print, lists: &Lists, words: &mut [u64]) -> io::Result<()> {
    say_words(rt, words, words.len())?;
    rt.print(": ")?;
    say_marks(rt, marks::step(lists.list, lists.classes, words, b'a'))?;
    say_words(rt, words, words.len())
}

// A call with words: the numbers are how many words are lent, how many are shown, and the words.
fn call_with_words(rt: &impl Print, case: &Case, lists: &Lists) -> io::Result<()> {
    let [lent, shown, ..] = case.numbers;
    let mut numbers = case.numbers;
    let words = &mut numbers[2..MOST_PIECES.min(lent as usize) + 2];
    if case.call == Call::Walk {
        say_walk(rt, case, lists, words, shown as usize)
    } else {
        say_step(rt, lists, words)
    }
}

// A case's call by a list and its classes; reading is none.
fn call_by(rt: &impl Print, case: &Case, lists: &Lists) -> io::Result<()> {
    let (list, classes) = (lists.list, lists.classes);
    match case.call {
        Call::Read => Ok(()),
        Call::Match => say_matched(rt, finder::is_match(list, classes, case.text)),
        Call::Search => say_searched(rt, finder::search(list, classes, case.text)),
        Call::Bytes => lists.say(rt),
        Call::Walk | Call::Step => call_with_words(rt, case, lists),
    }
}

// A case's call by the list that its expression of the first syntax is read into.
fn call_by_first(rt: &impl Print, case: &Case) -> io::Result<()> {
    let mut list = [0u8; LONGEST_LIST];
    let Ok(read) = reader::read(case.first, &mut list) else {
        return Ok(());
    };
    let size = RECORD_SIZE.saturating_mul(read.records).min(LONGEST_LIST);
    let lists = Lists {
        list: &list[..size],
        classes: b"",
    };
    call_by(rt, case, &lists)
}

// The same of the second syntax.
fn call_by_second(rt: &impl Print, case: &Case) -> io::Result<()> {
    let mut list = [0u8; LONGEST_LIST];
    let mut classes = [0u8; LONGEST_CLASSES];
    let Ok(counts) = reader::read_second(case.first, &mut list, &mut classes) else {
        return Ok(());
    };
    let size = RECORD_SIZE.saturating_mul(counts.records).min(LONGEST_LIST);
    let class_size = CLASS_RECORD_SIZE
        .saturating_mul(counts.classes)
        .min(LONGEST_CLASSES);
    let lists = Lists {
        list: &list[..size],
        classes: &classes[..class_size],
    };
    call_by(rt, case, &lists)
}

// A case's call; of an expression that is refused nothing but its reading is called. What is read in no syntax of its
// own is read in the second.
pub fn call(rt: &impl Print, case: &Case) -> io::Result<()> {
    match (case.by, case.call) {
        (By::First, Call::Read) => read_first(rt, case),
        (_, Call::Read) => read_second(rt, case),
        (By::First, _) => call_by_first(rt, case),
        (By::Second, _) => call_by_second(rt, case),
        (By::List, _) => {
            let lists = Lists {
                list: case.first,
                classes: case.classes,
            };
            call_by(rt, case, &lists)
        }
    }
}
