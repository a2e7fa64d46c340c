// A class: from its `[` to its `]`, 1 to 16 items, each a byte or a range.
ghost use Rattle.std.specs.Prelude.{◌≡◌, [], ◌≤◌, ◌<◌, length, get_or};
ghost use Rattle.classes.specs.Class.{class_sign, needs_slash, item_due};
ghost use Rattle.classes.specs.ClassComplete.{class_of_items};
ghost use Rattle.classes.specs.ClassReading.{
  class_run_from,
  ByteAnswer,
  ItemAnswer,
  RangeAnswer,
  DueAnswer,
  count_fits,
};
ghost use Rattle.classes.specs.ClassAt.{run_at};
ghost use Rattle.classes.specs.Members.{Members, value_count};
ghost use Rattle.classes.specs.ClassItems.{ClassAnswer, ItemsEndAnswer, ClassEndAnswer};

use crate::members::set_range;
use crate::part::{ClassByte, ClassItem, Due};
use tree::bytes::stands_at;

// How many items a class has at most.
const MOST_ITEMS: usize = 16;

// Whether a byte stands in a class only after a `\`.
fn must_be_escaped(byte: u8) -> bool
    ensures { result ≡ needs_slash (class_sign byte) }
{
    matches!(byte, b'\\' | b']' | b'^' | b'-')
}

// Whether a class may have so many items.
fn may_have(count: usize) -> bool
    ensures { result ≡ count_fits count }
{
    matches!(count, 1..=MOST_ITEMS)
}

// Reads one byte of a class: itself, or after its `\`.
fn class_byte(expr: &[u8], at: usize) -> Option<ClassByte>
    requires { at ≤ length expr.now }
    ensures { ByteAnswer expr.now at result }
{
    let byte = *expr.get(at)?;
    if byte == b'\\' {
        let escaped = *expr.get(at + 1)?;
        let read = ClassByte {
            byte: escaped,
            next: at + 2,
        };
        return must_be_escaped(escaped).then_some(read);
    }
    let read = ClassByte { byte, next: at + 1 };
    (!must_be_escaped(byte)).then_some(read)
}

// Reads the last byte of a range, from after its `-`.
fn range(expr: &[u8], first: u8, at: usize) -> Option<ClassItem>
    requires { at ≤ length expr.now }
    ensures { RangeAnswer expr.now first at result }
{
    let ClassByte { byte, next } = class_byte(expr, at)?;
    if byte < first {
        return None;
    }
    Some(ClassItem {
        first,
        last: byte,
        next,
    })
}

// Reads an item of a class: a byte, or a range.
fn item(expr: &[u8], at: usize) -> Option<ClassItem>
    requires within { at ≤ length expr.now }
    requires other { at < length expr.now → get_or expr.now at 0 ≡ 93 → ⊥ }
    ensures { ItemAnswer expr.now at result }
{
    let ClassByte { byte, next } = class_byte(expr, at)?;
    if stands_at(expr, next, b'-') {
        return range(expr, byte, next + 1);
    }
    Some(ClassItem {
        first: byte,
        last: byte,
        next,
    })
}

// Reads what stands where an item is due, after `count` items. It is put into its callers, so that what it finds is not
// copied once more.
#[inline(always)]
fn due(expr: &[u8], at: usize, count: usize) -> Option<Due>
    requires { at ≤ length expr.now }
    ensures { DueAnswer expr.now at count result }
{
    if stands_at(expr, at, b']') {
        return may_have(count).then_some(Due::End);
    }
    item(expr, at).map(Due::Item)
}

// Passes over the items of a class up to its `]`. Whether all but those are taken makes no difference here. A function
// beside `items`, so that passing over a class needs no room for its values.
fn items_end(expr: &[u8], at: usize) -> Option<usize>
    requires { at ≤ length expr.now }
    ensures { ItemsEndAnswer expr.now at result }
{
    let mut place = at;
    let mut count = 0;
    // A while: the place goes to the end of each item.
    while let Due::Item(item) = due(expr, place, count)? {
        count += 1;
        place = item.next;
    }
    Some(place + 1)
}

// Passes over the class whose `[` stands at a place.
pub fn class_end(expr: &[u8], at: usize) -> Option<usize>
    requires { at < length expr.now }
    ensures { ClassEndAnswer expr.now at result }
{
    if stands_at(expr, at + 1, b'^') {
        return items_end(expr, at + 2);
    }
    items_end(expr, at + 1)
}

// Reads the items of a class up to its `]`. `members` tells their values: 0 for each where all but those are taken.
fn items(expr: &[u8], at: usize, members: &mut [u8], all_but: bool) -> Option<usize>
    requires within { at ≤ length expr.now }
    requires empty { Members (class_of_items all_but []) members.old }
    ensures { ClassAnswer expr.now at
        (class_run_from expr.now at (class_of_items all_but [])
        item_due)
        members.new result }
{
    let value = u8::from(!all_but);
    let mut place = at;
    let mut count = 0;
    // A while: the place goes to the end of each item.
    while let Due::Item(item) = due(expr, place, count)? {
        set_range(
            members,
            usize::from(item.first),
            usize::from(item.last),
            value,
        );
        count += 1;
        place = item.next;
    }
    Some(place + 1)
}

// Reads the class whose `[` stands at a place. `members` tells its values: 1 for each that it takes.
pub fn class_members(expr: &[u8], at: usize, members: &mut [u8]) -> Option<usize>
    requires { (at < length expr.now) × (length members.old ≡ value_count) }
    ensures { ClassAnswer expr.now at (run_at expr.now at) members.new result }
{
    if stands_at(expr, at + 1, b'^') {
        members.fill(1);
        return items(expr, at + 2, members, true);
    }
    members.fill(0);
    items(expr, at + 1, members, false)
}
