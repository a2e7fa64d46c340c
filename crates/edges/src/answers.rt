// What a call answers, in words.
use matching::part::Span;
use reader::Read;
use saying::say_yes;
use std::io;
use stepping::inner::Told;
use tree::counted::Counts;
use tree::refusal::{Refusal, Refused};

// A refusal of a call whose refusals stand at no place.
fn say_refusal(rt: &impl Print, refusal: Refusal) -> io::Result<()> {
    rt.print(Refused { refusal, place: 0 })
}

pub fn say_read(rt: &impl Print, answer: Result<Read, Refused>) -> io::Result<()> {
    match answer {
        Ok(Read { records, pieces }) => print!(rt; "records {records}, pieces {pieces}"),
        Err(refused) => rt.print(refused),
    }
}

pub fn say_counted(rt: &impl Print, answer: Result<Counts, Refused>) -> io::Result<()> {
    match answer {
        Ok(
            Counts {
                records,
                pieces,
                classes,
            },
        ) => print!(rt; "records {records}, pieces {pieces}, classes {classes}"),
        Err(refused) => rt.print(refused),
    }
}

pub fn say_matched(rt: &impl Print, answer: Result<bool, Refusal>) -> io::Result<()> {
    match answer {
        Ok(matched) => say_yes(rt, matched),
        Err(refusal) => say_refusal(rt, refusal),
    }
}

pub fn say_searched(rt: &impl Print, answer: Result<Option<Span>, Refusal>) -> io::Result<()> {
    match answer {
        Ok(Some(Span { start, end })) => print!(rt; "start {start}, end {end}"),
        Ok(None) => rt.print("nothing"),
        Err(refusal) => say_refusal(rt, refusal),
    }
}

// What a start or a step answered.
pub fn say_marks(rt: &impl Print, answer: Result<Told, Refusal>) -> io::Result<()> {
    match answer {
        Ok(told) => say_yes(rt, told.accepting)?,
        Err(refusal) => say_refusal(rt, refusal)?,
    }
    rt.print(", marks")
}
