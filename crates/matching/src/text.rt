// Whole-text match over the rows of a list.
ghost use Rattle.std.specs.Prelude.{ℕ, ◌≡◌, true, ◌↔◌};
ghost use Rattle.language.specs.Tree.{Tree};
ghost use Rattle.tree.specs.Leaf.{Leaf, Matches};
ghost use Rattle.tables.specs.Tables.{Prepared, Ready};

use moving::memo::MEMO_WORDS;
use stepping::inner::begin_in;
use stepping::memory::advance_by_memo;
use tree::limits::MOST_PIECES;

// Whether the text is in the language of the tree that the rows are of. Where no mark is left, none comes back: the
// rest is not read.
pub fn text_matches(rows: &[u64], count: usize, classes: &[u8], text: &[u8]) -> bool
    requires { Ready rows.now count }
    ensures { (t : Tree Leaf)
        → Prepared t rows.now count → (result ≡ true) ↔ Matches classes.now t text.now }
{
    let mut words = [0u64; MOST_PIECES];
    let mut memo = [0u64; MEMO_WORDS];
    let mut yes = begin_in(rows, count, &mut words);
    for byte in text {
        let told = advance_by_memo(rows, count, classes, &mut memo, &mut words, *byte);
        if told.nothing {
            return false;
        }
        yes = told.accepting;
    }
    yes
}
