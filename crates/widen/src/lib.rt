// Lists of the old layout, with eight bytes a record, turned into lists of today's, with the place 0 in every record.
#![tactic(auto)]

ghost use Rattle.std.specs.Prelude.{◌*◌, ◌≤◌, ◌<◌, ◌≡◌, ◌++◌, length, drop};
ghost use Rattle.tree.specs.Limits.{most_records};
ghost use Rattle.tree.specs.Layout.{record_size};
ghost use Rattle.deciding.specs.Judged.{Judged};
ghost use Rattle.widen.specs.OldLayout.{old_records, wide_byte, widened};
ghost use Rattle.widen.specs.Promise.{Widens};

use deciding::good::decide;
use tree::counted::Counts;
use tree::layout::RECORD_SIZE;
use tree::limits::MOST_RECORDS;
use tree::refusal::Refusal;

// How many bytes a record of the old layout has: they are the first of a record's bytes today.
pub const OLD_RECORD_SIZE: usize = 8;

// What the last four bytes of a wide record hold: the place 0, and two bytes that are 0.
const UNPLACED: u8 = 0;

// The bytes of the longest list.
const LONGEST_LIST: usize = RECORD_SIZE * MOST_RECORDS;

// Byte j of the wide list: of the old record, or 0 past it.
fn wide_byte(old: &[u8], j: usize) -> u8
    requires { j < record_size * old_records old.now }
    ensures { result ≡ wide_byte old.now j }
{
    let byte = j % RECORD_SIZE;
    if byte < OLD_RECORD_SIZE {
        return old[OLD_RECORD_SIZE * (j / RECORD_SIZE) + byte];
    }
    UNPLACED
}

// Writes the wide list, and nothing past it.
fn write_wide(old: &[u8], out: &mut [u8])
    requires { record_size * old_records old.now ≤ length out.old }
    ensures { out.new ≡ widened old.now
        ++ drop (record_size * old_records old.now) out.old }
{
    for j in 0..RECORD_SIZE * (old.len() / OLD_RECORD_SIZE) {
        out[j] = wide_byte(old, j);
    }
}

// Decides on the wide list, which is written into a lent array.
fn decide_wide(old: &[u8], wide: &mut [u8]) -> Option<Counts>
    requires { record_size * old_records old.now ≤ length wide.old }
    ensures { Judged (widened old.now) result }
{
    write_wide(old, wide);
    decide(&wide[..RECORD_SIZE * (old.len() / OLD_RECORD_SIZE)])
}

// Decides on it in an array of its own.
fn decide_old(old: &[u8]) -> Option<Counts>
    requires { old_records old.now ≤ most_records }
    ensures { Judged (widened old.now) result }
{
    let mut wide = [0u8; LONGEST_LIST];
    decide_wide(old, &mut wide)
}

// Turns a good list of the old layout into one of today with the place 0 in every record, and gives the number of its
// records. Where the old list is not good, or the buffer is too short, in this order, nothing is written.
pub fn widen(old: &[u8], records: &mut [u8]) -> Result<usize, Refusal>
    ensures { Widens old.now records.old records.new result }
{
    if old.len() % OLD_RECORD_SIZE != 0 {
        return Err(Refusal::ListNotGood);
    }
    if MOST_RECORDS < old.len() / OLD_RECORD_SIZE {
        return Err(Refusal::ListNotGood);
    }
    let counts = decide_old(old).ok_or(Refusal::ListNotGood)?;
    if records.len() < RECORD_SIZE * counts.records {
        return Err(Refusal::BufferTooShort);
    }
    write_wide(old, records);
    Ok(counts.records)
}
