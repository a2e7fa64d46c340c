// Deciding on a list and making its rows, in those that are lent: what lies on the stack for deciding is gone before
// the rows are used.
#![tactic(auto)]

ghost use Rattle.std.specs.Prelude.{◌/◌, ◌≤◌, ◌<◌, length};
ghost use Rattle.tree.specs.Limits.{most_records, slot_count};
ghost use Rattle.tree.specs.Layout.{record_size};
ghost use Rattle.deciding.specs.Judged.{RoomToDecide};
ghost use Rattle.preparing.specs.Made.{RoomFor, PreparedList};
ghost use Rattle.preparing.specs.MadeFor.{PreparedFor};

use deciding::good::{MOST_SLOTS, decide_with};
use stepping::inner::prepare;
use tree::counted::Counts;
use tree::layout::{CLASS_RECORD_SIZE, RECORD_SIZE};
use tree::limits::FEW_SLOTS;
use tree::refusal::Refusal;

// Decides on a list and makes its rows, with slots lent for deciding.
fn prepare_by(list: &[u8], cuts: &mut [u16], rows: &mut [u64]) -> Option<Counts>
    requires room_to_decide { RoomToDecide list.now cuts.old }
    requires room_for { RoomFor list.now rows.old }
    ensures { PreparedList list.now result rows.new }
{
    let counts = decide_with(list, cuts)?;
    prepare(list, cuts, counts.pieces, rows);
    Some(counts)
}

// With so many slots for deciding, of its own.
fn prepare_in_slots<const SLOTS: usize>(list: &[u8], rows: &mut [u64]) -> Option<Counts>
    requires slots_bound { length list.now / record_size ≤ most_records → length list.now / record_size < SLOTS }
    requires slots_few { SLOTS ≤ slot_count }
    requires room_for { RoomFor list.now rows.old }
    ensures { PreparedList list.now result rows.new }
{
    let mut cuts = [0u16; SLOTS];
    prepare_by(list, &mut cuts, rows)
}

// Decides whether a list is good, counts its records, pieces and class leaves, and makes its rows where it is. By the
// fewest slots that are enough: most of what a short list costs is setting arrays to 0. It calls itself with more, so
// that each size has a stack frame of its own, which is gone when it answers.
pub fn prepare_list(list: &[u8], slots: usize, rows: &mut [u64]) -> Option<Counts>
    requires le_slots { 1 ≤ slots }
    requires room_for { RoomFor list.now rows.old }
    ensures { PreparedList list.now result rows.new }
{
    if slots <= list.len() / RECORD_SIZE {
        return prepare_list(list, 4 * slots, rows);
    }
    if slots <= FEW_SLOTS {
        return prepare_in_slots::<FEW_SLOTS>(list, rows);
    }
    prepare_in_slots::<MOST_SLOTS>(list, rows)
}

// The same for a call that needs a class record for each class leaf: it refuses a list that is not good, and then too
// few class records.
pub fn prepare_for(
    list: &[u8],
    classes: &[u8],
    slots: usize,
    rows: &mut [u64],
) -> Result<Counts, Refusal>
    requires le_slots { 1 ≤ slots }
    requires room_for { RoomFor list.now rows.old }
    ensures { PreparedFor list.now classes.now result rows.new }
{
    let counts = prepare_list(list, slots, rows).ok_or(Refusal::ListNotGood)?;
    if classes.len() / CLASS_RECORD_SIZE < counts.classes {
        return Err(Refusal::ClassBufferTooShort);
    }
    Ok(counts)
}
