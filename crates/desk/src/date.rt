// The dates of a leap year, each as `MM-DD`.
ghost use Rattle.std.specs.Prelude.{◌≡◌, length};

pub type Date = [u8; 5];

// How many dates there are: an array of them needs no memory that could be refused.
pub const DATE_COUNT: usize = 366;

// How many days each month has.
const MONTHS: [u8; 12] = [31, 29, 31, 30, 31, 30, 31, 31, 30, 31, 30, 31];

// A number in two digits.
fn digits(number: u8) -> (u8, u8) {
    (b'0' + number / 10, b'0' + number % 10)
}

fn date(month: u8, day: u8) -> Date
    ensures { 5 ≡ length result }
{
    let (tens, ones) = digits(month);
    let (day_tens, day_ones) = digits(day);
    [tens, ones, b'-', day_tens, day_ones]
}

// How many days a month has, by its number from 1 on.
fn days_of(month: u8) -> u8 {
    match month.checked_sub(1) {
        Some(before) => MONTHS.get(usize::from(before)).copied().unwrap_or(0),
        None => 0,
    }
}

// The month and the day after a day.
fn day_after(month: u8, day: u8) -> (u8, u8) {
    if day < days_of(month) {
        (month, day.saturating_add(1))
    } else {
        (month.saturating_add(1), 1)
    }
}

// All dates, in their order.
pub fn dates() -> [Date; DATE_COUNT] {
    let mut dates = [date(1, 1); DATE_COUNT];
    let (mut month, mut day) = (1, 1);
    for place in &mut dates {
        *place = date(month, day);
        (month, day) = day_after(month, day);
    }
    dates
}

// The date with these bits of the byte at a place changed.
pub fn changed(mut date: Date, at: usize, bits: u8) -> Date
    ensures { 5 ≡ length result }
{
    if let Some(byte) = date.get_mut(at) {
        *byte ^= bits;
    }
    date
}
