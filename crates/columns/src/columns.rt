// The columns of a table of steps: for each byte which it has, and for each the byte that it begins with.
ghost use Rattle.std.specs.Prelude.{◌≤◌, ◌<◌, ◌≡◌, length, take};
ghost use Rattle.language.specs.Tree.{Tree};
ghost use Rattle.tree.specs.Leaf.{Leaf};
ghost use Rattle.tree.specs.Limits.{most_states};
ghost use Rattle.tables.specs.Tables.{Prepared, Roomy};
ghost use Rattle.machines.specs.Columns.{byte_count, Columned};
ghost use Rattle.columns.specs.Alike.{start_code_at};
ghost use Rattle.columns.specs.ColumnNumbering.{Grouped, ColumnsNumbered};

use crate::BYTE_COUNT;
use crate::parting::{KNOWN_COUNT, look_at};
use closing::bits::has_bit;
use moving::classes::class_of;
use tables::rows::PieceRow;
use tree::limits::MOST_STATES;

// The number of the leaf that starts at a state, by the row of its piece.
fn start_code_at(row: PieceRow, state: usize) -> u16
    requires { state < most_states }
    ensures { result ≡ start_code_at row.entry.rows.now row.entry.piece state }
{
    if has_bit(row.word(3), state) {
        return (2 * class_of(row, state) + 1) as u16;
    }
    (2 * (row.byte(state) + 1)) as u16
}

// Numbers the groups in the order of their least bytes. Answers how many there are.
fn number_groups(
    least: &[u8; BYTE_COUNT],
    firsts: &mut [u8; BYTE_COUNT],
    columns: &mut [u8; BYTE_COUNT],
) -> usize
    requires { Grouped least.now × (length firsts.old ≡ byte_count) × (length columns.old ≡ byte_count) }
    ensures { ColumnsNumbered least.now byte_count firsts.new columns.new result }
{
    let mut count: usize = 0;
    for (byte, &least) in least.iter().enumerate() {
        let first = usize::from(least);
        if first == byte {
            firsts[count] = least;
            columns[byte] = count as u8;
            count += 1;
        } else {
            columns[byte] = columns[first];
        }
    }
    count
}

// Notes for each byte the number of its column, and for each column the byte that it begins with: bytes share a column
// exactly where no leaf tells them apart. Answers how many columns there are.
pub fn columns_of(
    rows: &[u64],
    count: usize,
    classes: &[u8],
    firsts: &mut [u8; BYTE_COUNT],
    columns: &mut [u8; BYTE_COUNT],
) -> usize
    requires { Roomy count rows.now × (length firsts.old ≡ byte_count)
        × (length columns.old ≡ byte_count) }
    ensures lower_bound { (1 ≤ result) × (result ≤ byte_count) × (length firsts.new ≡ byte_count) }
    ensures columned { (t : Tree Leaf) → Prepared t rows.now count
        → Columned classes.now t (take result firsts.new) columns.new }
{
    let mut least = [0u8; BYTE_COUNT];
    let mut known = [0u8; KNOWN_COUNT];
    for entry in 0..MOST_STATES * count {
        let row = PieceRow {
            rows,
            piece: entry / MOST_STATES,
        };
        let state = entry % MOST_STATES;
        if has_bit(row.word(2), state) {
            let number = start_code_at(row, state);
            look_at(classes, number, &mut known, &mut least);
        }
    }
    number_groups(&least, firsts, columns)
}
