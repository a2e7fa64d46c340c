// A count: from its `{` to its `}`, two numbers with a comma between them.
ghost use Rattle.std.specs.Prelude.{◌≤◌, ◌<◌, length};
ghost use Rattle.counts.specs.Count.{most_due};
ghost use Rattle.counts.specs.CountReading.{
  count_run_from,
  DigitAnswer,
  NumberAnswer,
  RanAnswer,
  CountAnswer,
};

use crate::part::{Count, Number};
use tree::bytes::stands_at;

// The largest number of a count.
const LARGEST: usize = 16;

// The value of the digit at a place, if one stands there.
fn digit(expr: &[u8], at: usize) -> Option<usize>
    ensures { DigitAnswer expr.now at result }
{
    match expr.get(at) {
        Some(&byte @ b'0'..=b'9') => Some(usize::from(byte - b'0')),
        _ => None,
    }
}

// Reads a number from a place on: its digits, with no 0 before another, and at most 16.
fn number(expr: &[u8], at: usize) -> Option<Number>
    requires { at ≤ length expr.now }
    ensures { NumberAnswer expr.now at result }
{
    let mut value = digit(expr, at)?;
    let mut next = at + 1;
    // A while: the number ends where no digit stands, and that place is a part of the answer.
    while let Some(more) = digit(expr, next) {
        if value == 0 {
            return None;
        }
        value = 10 * value + more;
        if value > LARGEST {
            return None;
        }
        next += 1;
    }
    Some(Number { value, next })
}

// Reads the second number of a count, and its `}`.
fn most(expr: &[u8], at: usize, fewest: usize) -> Option<Count>
    requires { at ≤ length expr.now }
    ensures { RanAnswer expr.now at (count_run_from expr.now at (most_due fewest)) result }
{
    let Number { value, next } = number(expr, at)?;
    if !stands_at(expr, next, b'}') || value == 0 || value < fewest {
        return None;
    }
    Some(Count {
        next: next + 1,
        fewest,
        most: value,
    })
}

// Reads the count whose `{` stands at a place.
pub fn count(expr: &[u8], at: usize) -> Option<Count>
    requires { at < length expr.now }
    ensures { CountAnswer expr.now at result }
{
    let Number { value, next } = number(expr, at + 1)?;
    if !stands_at(expr, next, b',') {
        return None;
    }
    most(expr, next + 1, value)
}
