// Refusal 13: whether a bit past a last state is set, or the two bits of a shared state differ.
ghost use Rattle.std.specs.Prelude.{ℕ, ◌+◌, ◌*◌, ◌^◌, ◌≤◌, ◌<◌, ◌↔◌, ◌≡◌, length};
ghost use Rattle.language.specs.Nested.{Nested};
ghost use Rattle.tree.specs.Leaf.{Leaf};
ghost use Rattle.tables.specs.Words.{word_bits, Bit, run, Clean, Agreeing};
ghost use Rattle.tree.specs.Limits.{most_states};
ghost use Rattle.tables.specs.Plan.{row_words, run_of, Planned};
ghost use Rattle.closing.specs.BitsOfWords.Bits.{Tells};
ghost use Rattle.stepping.specs.SharedStates.Parents.{Parent};
ghost use Rattle.stepping.specs.SharedStates.WordsChecked.{PairAgrees, ChildAgrees, Checkable};

use tables::rows::PieceRow;

// Whether bit i of one word is as bit j of another.
fn same_bit(one: u64, i: usize, other: u64, j: usize) -> bool
    requires { (i < word_bits) × (j < word_bits) }
    ensures { Tells (Bit one i ↔ Bit other j) result }
{
    (one >> i) % 2 == (other >> j) % 2
}

// Whether no bit past the one numbered `top` is set.
fn none_past(word: u64, top: usize) -> bool
    requires { top < most_states }
    ensures { Tells (word < 2 ^ (top + 1)) result }
{
    word >> (top + 1) == 0
}

// The piece that a child piece hangs below: the last one before it whose run reaches past it, as the root's does.
fn parent(rows: &[u64], child: usize) -> usize
    requires { (0 < child) × (child < run_of rows.now 0) × (row_words * child ≤ length rows.now) }
    ensures { Parent rows.now child result }
{
    for at in (1..child).rev() {
        let row = PieceRow { rows, piece: at };
        if child < at + row.run() {
            return at;
        }
    }
    0
}

// Whether a child piece's word has no bit past its last state, numbered `top`, and its start and accepting state have
// the bits of their stand-in, which are numbered from `stand` in the word above.
fn pair_agrees(above: u64, stand: usize, word: u64, top: usize) -> bool
    requires { (stand < most_states) × (top < most_states) }
    ensures { Tells (PairAgrees above stand word top) result }
{
    none_past(word, top) && same_bit(above, stand, word, 0) && same_bit(above, stand + 1, word, top)
}

// Whether the child piece's bits are those of its stand-in.
fn child_agrees(rows: &[u64], words: &[u64], pieces: usize, child: usize) -> bool
    requires { Checkable rows.now words.now pieces × (0 < child) × (child < pieces) }
    ensures { Tells (ChildAgrees rows.now words.now child) result }
{
    let over = parent(rows, child);
    let row = PieceRow { rows, piece: child };
    pair_agrees(words[over], row.stand(), words[child], row.top())
}

// Whether the words may be stepped: no bit past a last state is set, and the two bits of each shared state agree.
pub fn agreeing(rows: &[u64], words: &[u64], pieces: usize) -> bool
    requires { Checkable rows.now words.now pieces }
    ensures { (x : Nested Leaf) → Planned rows.now x → 1 + run x ≡ pieces
        → Tells (Clean x words.now × Agreeing x words.now) result }
{
    let root = PieceRow { rows, piece: 0 };
    none_past(words[0], root.top())
        && (1..pieces).all(|child| child_agrees(rows, words, pieces, child))
}
