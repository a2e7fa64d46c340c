// The rows of a good list, made once before any byte is read.
ghost use Rattle.std.specs.Prelude.{◌+◌};
ghost use Rattle.language.specs.Tree.{Tree};
ghost use Rattle.language.specs.Nested.{Nested};
ghost use Rattle.tree.specs.Leaf.{Leaf};
ghost use Rattle.tree.specs.Records.{Good};
ghost use Rattle.tables.specs.Tables.{Prepared, Roomy};
ghost use Rattle.tables.specs.Filling.{SameLengths};
ghost use Rattle.planning.specs.Below.{Top};
ghost use Rattle.planning.specs.Making.{PiecesMade, Making, PieceNumber, Total};
ghost use Rattle.planning.specs.Given.{DecidedGood};

use packing::pack::pack;
use tables::fill::Tables;
use tree::layout::RECORD_SIZE;

// Makes the row of the piece k, and notes of its child pieces where their stand-ins are. The codes of the piece before
// are written over.
fn piece(list: &[u8], cuts: &[u16], k: usize, tables: &mut Tables, rows: &mut [u64])
    requires making { Making list.now cuts.now k tables.old rows.old }
    requires piece_number { PieceNumber list.now k }
    ensures made { (x : Nested Leaf) → Top list.now x → PiecesMade x (k + 1) tables.new rows.new }
    ensures same_lengths { SameLengths tables.old tables.new }
{
    let node = usize::from(tables.roots[k]);
    let last = tables.fill(list, node, k, 0);
    tables.codes[last - 1] = 0;
    let run = usize::from(cuts[node + 1]) + 1;
    pack(
        rows,
        k,
        &tables.codes,
        last,
        run,
        usize::from(tables.stands[k]),
    );
}

// Makes the rows of all pieces, in the order of their numbers.
fn pieces(list: &[u8], cuts: &[u16], total: usize, tables: &mut Tables, rows: &mut [u64])
    requires making { Making list.now cuts.now 0 tables.old rows.old }
    requires total { Total list.now total }
    ensures { Making list.now cuts.now total tables.new rows.new }
{
    for k in 0..total {
        piece(list, cuts, k, tables, rows);
    }
}

// Makes the rows of a good list, with what deciding on it has left: the pieces below each record's node, and how many
// pieces there are in all.
pub fn plan(list: &[u8], cuts: &[u16], total: usize, rows: &mut [u64])
    requires decided_good { DecidedGood list.now cuts.now total }
    requires roomy { Roomy total rows.old }
    ensures { (t : Tree Leaf) → Good list.now t → Prepared t rows.new total }
{
    let mut tables = Tables::new();
    let last = list.len() / RECORD_SIZE - 1;
    tables.roots[0] = last as u16;
    pieces(list, cuts, total, &mut tables, rows);
}
