// Steps along many bytes, one after the other, over the rows of a list, which are made once.
ghost use Rattle.std.specs.Prelude.{ℕ, List};
ghost use Rattle.language.specs.Tree.{Tree};
ghost use Rattle.tree.specs.Leaf.{Leaf};
ghost use Rattle.tables.specs.Tables.{Prepared};
ghost use Rattle.stepping.specs.Hold.{MarksOf};
ghost use Rattle.stepping.specs.Inner.{Running};
ghost use Rattle.marks.specs.Answer.{marking};
ghost use Rattle.marks.specs.StepsEach.{StepsEach};
ghost use Rattle.marks.specs.Along.{Steppable, ToldOf, Walkable};

use closing::bits::has_bit;
use closing::close::none_marked;
use stepping::inner::{Told, advance};
use tables::rows::PieceRow;

// What is told of the marks as they are.
fn told_of(rows: &[u64], count: usize, words: &[u64]) -> Told
    requires { Running rows.now count words.now }
    ensures { (t : Tree Leaf)
        → Prepared t rows.now count → MarksOf t words.now
        → ToldOf t words.now result.accepting result.nothing }
{
    let root = PieceRow { rows, piece: 0 };
    Told {
        accepting: has_bit(words[0], root.top()),
        nothing: words[..count].iter().all(|word| none_marked(*word)),
    }
}

// Moves the marks along each byte and closes after each. Where nothing is left, nothing comes back: the rest is not
// read. Answers what is told of the marks after the last byte.
pub fn advance_along(
    rows: &[u64],
    count: usize,
    classes: &[u8],
    words: &mut [u64],
    bytes: &[u8],
) -> Told
    requires { Walkable rows.now count words.old }
    ensures { (list : List ℕ) (t : Tree Leaf)
        → Prepared t rows.now count → Steppable list classes.now t words.old
        → StepsEach list classes.now words.old bytes.now words.new
        (marking result.accepting result.nothing) }
{
    let mut told = told_of(rows, count, words);
    for byte in bytes {
        if told.nothing {
            return told;
        }
        told = advance(rows, count, classes, words, *byte);
    }
    told
}
