// One expression on dates and on texts that are none.
use crate::date::{DATE_COUNT, Date, changed};
use std::io;
use tree::layout::RECORD_SIZE;
use tree::limits::MOST_RECORDS;

// The bit of a byte that is changed: its lowest, then its highest.
const LOWEST_BIT: u8 = 1;

const HIGHEST_BIT: u8 = 128;

// The three dates that once were told apart wrongly.
const END_OF_FEBRUARY: [&str; 3] = ["02-28", "02-29", "03-01"];

// Texts that look like dates and are none.
const NO_DATES: [&str; 7] = ["02-30", "04-31", "13-01", "00-10", "2-29", "02-299", ""];

// Whether the list's language has the text.
fn picks(list: &[u8], text: &[u8]) -> bool {
    finder::is_match(list, b"", text) == Ok(true)
}

// Whether each text is picked, on one line.
fn say_texts(rt: &impl Print, list: &[u8], texts: &[&str]) -> io::Result<()> {
    for (i, text) in texts.iter().enumerate() {
        let comma = if i == 0 { "" } else { ", " };
        let name = if text.is_empty() {
            "an empty line"
        } else {
            text
        };
        let told = if picks(list, text.as_bytes()) {
            "yes"
        } else {
            "no"
        };
        print!(rt; "{comma}{name} {told}")?;
    }
    println!(rt;)
}

// Of each date its place among those that are picked, from 1; 0 of a date that is not picked.
fn places_of(list: &[u8], dates: &[Date; DATE_COUNT]) -> [usize; DATE_COUNT] {
    let mut places = [0; DATE_COUNT];
    let mut picked: usize = 0;
    for (place, date) in places.iter_mut().zip(dates) {
        if picks(list, date) {
            picked = picked.saturating_add(1);
            *place = picked;
        }
    }
    places
}

// A line for each date that was picked, with its place among them.
fn list_dates(rt: &impl Print, dates: &[Date], places: &[usize]) -> io::Result<()> {
    for (date, place) in dates.iter().zip(places) {
        if *place > 0 {
            print!(rt; "{place} ")?;
            rt.write_all(date)?;
            println!(rt;)?;
        }
    }
    Ok(())
}

// The place of a date among those that are picked; 0 for a date that is not picked.
fn place_of(date: &Date, dates: &[Date], places: &[usize]) -> usize {
    dates
        .iter()
        .position(|other| other == date)
        .and_then(|i| places.get(i))
        .copied()
        .unwrap_or(0)
}

// All dates: how many are picked, and the places of 29 February and 1 March.
fn say_dates(
    rt: &impl Print,
    list: &[u8],
    dates: &[Date; DATE_COUNT],
    listed: bool,
) -> io::Result<()> {
    let places = places_of(list, dates);
    if listed {
        list_dates(rt, dates, &places)?;
    }
    let count = places.iter().filter(|place| **place > 0).count();
    let leap_day = place_of(b"02-29", dates, &places);
    let next_day = place_of(b"03-01", dates, &places);
    println!(rt; "{count} of 366 dates, 02-29 is {leap_day}, 03-01 is {next_day}")
}

// The dates with a bit changed: how many are picked, for each of their five bytes.
fn say_changed(rt: &impl Print, list: &[u8], dates: &[Date], bit: u8) -> io::Result<()> {
    for at in 0..5 {
        let picked = dates
            .iter()
            .filter(|date| picks(list, &changed(**date, at, bit)))
            .count();
        print!(rt; "{picked} ")?;
    }
    Ok(())
}

// Tries a list on everything, the dates that matter most first.
fn try_list(
    rt: &impl Print,
    list: &[u8],
    dates: &[Date; DATE_COUNT],
    listed: bool,
) -> io::Result<()> {
    say_texts(rt, list, &END_OF_FEBRUARY)?;
    say_dates(rt, list, dates, listed)?;
    say_texts(rt, list, &NO_DATES)?;
    say_changed(rt, list, dates, LOWEST_BIT)?;
    println!(rt; "of 366 with the lowest bit of a byte changed")?;
    say_changed(rt, list, dates, HIGHEST_BIT)?;
    println!(rt; "of 366 with the highest bit of a byte changed")
}

// Reads an expression and tries it; lists what dates it picks where that is asked.
pub fn trial(
    rt: &impl Print,
    expr: &[u8],
    dates: &[Date; DATE_COUNT],
    listed: bool,
) -> io::Result<()> {
    let mut list = [0u8; RECORD_SIZE * MOST_RECORDS];
    let Ok(read) = reader::read(expr, &mut list) else {
        return println!(rt; "refused");
    };
    println!(rt; "{} pieces", read.pieces)?;
    let size = RECORD_SIZE.saturating_mul(read.records).min(list.len());
    try_list(rt, &list[..size], dates, listed)
}
