// The lines of the texts, by the rows of the pieces of the expression's list, which are made once, and by a table of
// steps where it pays. The expression is one of the first syntax, so no class records are lent.
ghost use Rattle.std.specs.Prelude.{[], ⊤, MatchOption, length};
ghost use Rattle.language.specs.Tree.{Tree};
ghost use Rattle.tree.specs.Leaf.{Leaf};
ghost use Rattle.tree.specs.Records.{Good};
ghost use Rattle.planning.specs.Given.{GoodList};
ghost use Rattle.tables.specs.Tables.{Prepared, Ready};
ghost use Rattle.choosing.specs.TableChoice.{AcceptsLanguage};
ghost use Rattle.finder.specs.Decide.{matches};
ghost use Rattle.input.specs.Left.{lines_left};
ghost use Rattle.reporting.specs.Print.{text_lines};
ghost use Rattle.printing.specs.Printing.{Prints};
ghost use Rattle.picker.specs.Loop.{PrintSpace};

use choosing::{LARGE_ROOM, TABLE_ENTRIES, either_matches, make_if_paying};
use input::line::Lines;
use preparing::prepare_list;
use printing::print::Printer;
use printing::report::{text_line, total_line};
use tables::TABLE_WORDS;
use tree::limits::FEW_SLOTS;

// Prints a line for each text, and the last line; by the table of steps if there is one.
fn texts(table: Option<&[u16]>, rows: &[u64], pieces: usize, lines: Lines, out: &mut [u8]) -> usize
    requires ready { Ready rows.now pieces }
    requires space { PrintSpace (lines_left lines) (length out.old) }
    ensures { (t : Tree Leaf)
        → Prepared t rows.now pieces
        → MatchOption table.entry ⊤ (λ made. AcceptsLanguage [] t made.now)
        → Prints out.old 0 (text_lines (matches []) t 0 0 (lines_left lines.entry)) out.new result }
{
    let mut printer = Printer::new(out);
    let mut count = 0;
    let mut yes = 0;
    for text in lines {
        let matched = either_matches(table, rows, pieces, b"", text);
        count += 1;
        text_line(&mut printer, matched, count, yes + 1);
        if matched {
            yes += 1;
        }
    }
    total_line(&mut printer, count, yes);
    printer.at
}

// Makes a table of steps where so many bytes of texts pay for it, and prints a line for each text and the last line.
fn tables_texts(rows: &[u64], pieces: usize, bytes: usize, lines: Lines, out: &mut [u8]) -> usize
    requires ready { Ready rows.now pieces }
    requires space { PrintSpace (lines_left lines) (length out.old) }
    ensures { (t : Tree Leaf)
        → Prepared t rows.now pieces
        → Prints out.old 0 (text_lines (matches []) t 0 0 (lines_left lines.entry)) out.new result }
{
    let mut table = [0u16; TABLE_ENTRIES];
    if make_if_paying(rows, pieces, b"", bytes, LARGE_ROOM, &mut table) {
        texts(Some(&table), rows, pieces, lines, out)
    } else {
        texts(None, rows, pieces, lines, out)
    }
}

// Prints a line for each text, by an expression's list, whose rows are made once, and the last line.
pub fn list_texts(list: &[u8], bytes: usize, lines: Lines, out: &mut [u8]) -> usize
    requires list { GoodList list.now }
    requires space { PrintSpace (lines_left lines) (length out.old) }
    ensures { (t : Tree Leaf) → Good list.now t
        → Prints out.old 0 (text_lines (matches []) t 0 0 (lines_left lines.entry)) out.new result }
{
    let mut rows = [0u64; TABLE_WORDS];
    let counts = prepare_list(list, FEW_SLOTS, &mut rows).unwrap();
    tables_texts(&rows, counts.pieces, bytes, lines, out)
}
