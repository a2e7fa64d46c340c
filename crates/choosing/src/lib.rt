// Texts over the rows of a list's pieces: by a table of steps, where the texts are long enough to pay for it and it
// fits, and by marks otherwise.
#![tactic(auto)]

ghost use Rattle.std.specs.Prelude.{◌≡◌, ◌≤◌, true, ◌↔◌, ⊤, MatchOption};
ghost use Rattle.language.specs.Tree.{Tree};
ghost use Rattle.tree.specs.Leaf.{Leaf, Matches};
ghost use Rattle.tables.specs.Tables.{Prepared, Ready};
ghost use Rattle.choosing.specs.TableChoice.{AcceptsLanguage};

use matching::text::text_matches;
use running::run::runs;
use tabulating::tabulate;

// How many entries a table that is made here has at most.
pub const TABLE_ENTRIES: usize = 8192;

// The words of room that the making of a table is lent, of two sizes. It tries fewer steps than there are words.
const SMALL_ROOM: usize = 4000;

pub const LARGE_ROOM: usize = 8000;

// Makes a table of steps in so many words of room. Answers whether it fits.
fn make_in<const WORDS: usize>(
    rows: &[u64],
    count: usize,
    classes: &[u8],
    table: &mut [u16],
) -> bool
    requires ready { Ready rows.now count }
    requires words_few { WORDS ≤ LARGE_ROOM }
    ensures { (t : Tree Leaf) → Prepared t rows.now count → result ≡ true
        → AcceptsLanguage classes.now t table.new }
{
    let mut room = [0u64; WORDS];
    tabulate(rows, count, classes, table, &mut room).is_some()
}

// Makes a table of steps where so many bytes of texts pay for it: in the largest room that has no more words than
// these. A step that is tried is the work of one byte by marks, or two. Answers whether there is a table. It calls
// itself with less room, so that each size has a stack frame of its own.
pub fn make_if_paying(
    rows: &[u64],
    count: usize,
    classes: &[u8],
    bytes: usize,
    words: usize,
    table: &mut [u16],
) -> bool
    requires { Ready rows.now count }
    ensures { (t : Tree Leaf) → Prepared t rows.now count → result ≡ true
        → AcceptsLanguage classes.now t table.new }
{
    if words < SMALL_ROOM {
        return false;
    }
    if bytes < words {
        return make_if_paying(rows, count, classes, bytes, words / 2, table);
    }
    if words < LARGE_ROOM {
        make_in::<SMALL_ROOM>(rows, count, classes, table)
    } else {
        make_in::<LARGE_ROOM>(rows, count, classes, table)
    }
}

// Whether the text is in the language of the tree that the rows are of: by the table of steps where there is one, by
// marks otherwise.
pub fn either_matches(
    table: Option<&[u16]>,
    rows: &[u64],
    count: usize,
    classes: &[u8],
    text: &[u8],
) -> bool
    requires { Ready rows.now count }
    ensures { (t : Tree Leaf) → Prepared t rows.now count
        → MatchOption table.entry ⊤ (λ made. AcceptsLanguage classes.now t made.now)
        → (result ≡ true) ↔ Matches classes.now t text.now }
{
    match table {
        Some(table) => runs(table, text),
        None => text_matches(rows, count, classes, text),
    }
}
