// Making a table of steps from the rows of a list's pieces: its columns, then its states, found in the lent room, then
// its entries, written out where all fit.
#![tactic(auto)]

ghost use Rattle.std.specs.Prelude.{◌+◌, ◌≤◌, ◌≡◌, length, take};
ghost use Rattle.language.specs.Tree.{Tree};
ghost use Rattle.tree.specs.Leaf.{Leaf};
ghost use Rattle.tree.specs.Limits.{most_pieces};
ghost use Rattle.tables.specs.Tables.{Prepared, Ready};
ghost use Rattle.machines.specs.Columns.{byte_count, Columned};
ghost use Rattle.machines.specs.TableOf.{most_texts, TableFits};
ghost use Rattle.tabulating.specs.Tabulates.{Tabulates};
ghost use Rattle.tabulating.specs.TabulatesLaws.{TabulatingOutcome};

use columns::BYTE_COUNT;
use columns::columns::columns_of;
use exploring::explore::explore;
use running::HEADING;
use tables::rows::PieceRow;
use writing::{Places, write_table};

// How many entries a table has at most, so that an entry of 16 bits can say where a column begins.
const MOST_ENTRIES: usize = 65536;

// A table that was made: so many states, state 0 among them, and so many entries.
#[derive(Clone, Copy, Debug, PartialEq, Eq)]
pub struct Made {
    pub states: usize,
    pub entries: usize,
}

// For how many texts there is room: in a table of so many entries, and in so many words of room.
fn most_texts(count: usize, width: usize, entries: usize, words: usize) -> usize
    requires { (count ≤ most_pieces) × (width ≤ byte_count) }
    ensures { result ≡ most_texts count width entries words }
{
    let lent = MOST_ENTRIES.min(entries).saturating_sub(HEADING);
    let by_table = (lent / (width + 1)).saturating_sub(1);
    by_table.min(words / (1 + count + width))
}

// Finds the states, and writes the table where there are no more texts than `most`.
fn fill(
    rows: &[u64],
    count: usize,
    classes: &[u8],
    firsts: &[u8],
    columns: &[u8; BYTE_COUNT],
    width: usize,
    most: usize,
    table: &mut [u16],
    room: &mut [u64],
) -> Option<Made>
    requires ready { Ready rows.now count }
    requires le_width { (1 ≤ width) × (width ≤ length firsts.now) }
    requires columned { (t : Tree Leaf) → Prepared t rows.now count
        → Columned classes.now t (take width firsts.now) columns.now }
    requires table_fits { 1 ≤ most → TableFits count width (1 + most) (length table.old) (length room.old) }
    ensures { (t : Tree Leaf) → Prepared t rows.now count
        → TabulatingOutcome classes.now t (take width firsts.now) columns.now most
        table.old table.new result }
{
    if most == 0 {
        return None;
    }
    // `None` where the room is full before all states are found
    let texts = explore(rows, count, classes, firsts, width, most, room)?;
    let states = 1 + texts;
    let entries = HEADING + (width + 1) * states;
    let found_at = most + count * most;
    let root = PieceRow { rows, piece: 0 };
    let places = Places {
        marks: most,
        pieces: count,
        top: root.top(),
        entries: found_at,
        columns: width,
        texts,
    };
    write_table(columns, room, places, table);
    Some(Made { states, entries })
}

// Makes the table in the lent one, with room lent for finding its states. Where it does not fit it answers `None`, and
// no entry of the table differs; in both cases every word of the room is 0 afterwards.
pub fn tabulate(
    rows: &[u64],
    count: usize,
    classes: &[u8],
    table: &mut [u16],
    room: &mut [u64],
) -> Option<Made>
    requires { Ready rows.now count }
    ensures { (t : Tree Leaf) → Prepared t rows.now count
        → Tabulates classes.now t table.old table.new room.old
        room.new result }
{
    let mut firsts = [0u8; BYTE_COUNT];
    let mut columns = [0u8; BYTE_COUNT];
    let width = columns_of(rows, count, classes, &mut firsts, &mut columns);
    let most = most_texts(count, width, table.len(), room.len());
    let made = fill(
        rows, count, classes, &firsts, &columns, width, most, table, room,
    );
    room.fill(0);
    made
}
