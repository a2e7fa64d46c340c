// A sweep: the piece itself is closed, and its child pieces are gone through from left to right.
ghost use Rattle.std.specs.Prelude.{◌≡◌, true, ◌≤◌, ◌<◌, length};
ghost use Rattle.language.specs.Nested.{Nested};
ghost use Rattle.language.specs.Settled.{Settled};
ghost use Rattle.tree.specs.Limits.{most_pieces};
ghost use Rattle.tree.specs.Leaf.{Leaf, byteless};
ghost use Rattle.tables.specs.Words.{word_bits, Holds};
ghost use Rattle.closing.specs.BitsOfWords.Bits.{Tells};
ghost use Rattle.closing.specs.BitsOfWords.Zero.{AllZero};
ghost use Rattle.sweeping.specs.Swept.{passed, SweepReady, Sweepable, Swept, AtRest, Missed, Apart};
ghost use Rattle.sweeping.specs.ClosedFromState.{ClosesFrom};
ghost use Rattle.sweeping.specs.Twice.{Closable, ClosedTwice};

use closing::bits::{has_bit, with_bit};
use closing::close::{ClosedWord, close, close_after, none_marked};
use tables::ROW_WORDS;
use tables::rows::PieceRow;

// The word with bit `to` set where bit `from` of the other is.
fn pass(other: u64, from: usize, word: u64, to: usize) -> u64
    requires { (from < word_bits) × (to < word_bits) }
    ensures { result ≡ passed other from word to }
{
    word | (((other >> from) & 1) << to)
}

// The word of a piece, closed: it was closed but for what one state reaches, so closing that state alone is enough.
// Says also whether the closed word is zero.
fn close_from(row: PieceRow, word: u64, state: usize) -> ClosedWord
    requires { state < word_bits }
    ensures closes_from { ClosesFrom row.entry.rows.now row.entry.piece word state result.word }
    ensures tells { Tells (result.word ≡ 0) result.zero }
{
    if has_bit(word, state) {
        ClosedWord {
            word: word | close(row, with_bit(0, state)).word,
            zero: false,
        }
    } else {
        ClosedWord {
            word,
            zero: none_marked(word),
        }
    }
}

// The word with bit i set where that of the other is not.
fn missed(other: u64, i: usize, word: u64) -> u64
    requires { i < word_bits }
    ensures { Missed other i word result }
{
    if has_bit(other, i) {
        word
    } else {
        with_bit(word, i)
    }
}

// Whether no bit is set in both words.
fn apart(one: u64, other: u64) -> bool
    ensures { result ≡ true → Apart one other }
{
    one & other == 0
}

// Whether a child piece whose run goes from `at` up to `end` has nothing to do: its stand-in's start is not marked, and
// no mark is in its run, which is a single word without one, or outside of `from` up to `to`. One expression in place of
// the early answers costs each child piece more instructions.
fn at_rest(
    word: u64,
    stand: usize,
    first: u64,
    at: usize,
    end: usize,
    from: usize,
    to: usize,
) -> bool
    requires { (stand < word_bits) × (at < most_pieces) }
    ensures { result ≡ true → AtRest word stand first at end from to }
{
    if has_bit(word, stand) {
        return false;
    }
    if end == at + 1 {
        return first == 0;
    }
    end <= from || to <= at
}

// Whether nothing can happen from the child piece at `at` on: the own word has no mark, and those ahead have none.
fn idle(word: u64, at: usize, to: usize) -> bool
    ensures { result ≡ true → (word ≡ 0) × (to ≤ at) }
{
    none_marked(word) && to <= at
}

// What a sweep reports of the words that it leaves: whether another sweep would change nothing, and whether no word of
// the run has a mark. Either may be so without the other, so that no enum says it shorter.
#[derive(Drop)]
pub struct Reported {
    pub settled: bool,
    pub zero: bool,
}

// Sweeps the run of a piece, whose row is the first of the table: closes the piece itself, then goes through its child
// pieces from left to right, whose runs stand one after the other behind its own word. A marked start is passed down,
// the child is swept, a marked accepting state is passed up, and the piece is closed again. Marks of the child pieces
// are among the words `from` to `to` only: a run with none of them is passed over if its start is not marked. They are
// two numbers and no span, since a span has a mark in its last word and these need not. Answers whether all starts were
// marked in time, so that another sweep would change nothing, and whether nothing is marked: by what each closing and
// each child's sweep say.
pub fn sweep(rows: &[u64], from: usize, to: usize, words: &mut [u64]) -> Reported
    requires { SweepReady rows.now from to words.old }
    ensures swept { (x : Nested Leaf) → Sweepable rows.now x words.old
        → Swept x words.old words.new }
    ensures settled { (x : Nested Leaf) → Sweepable rows.now x words.old
        → result.settled ≡ true → Settled byteless x (Holds x words.new) }
    ensures tells { Tells (AllZero (length words.old) words.new) result.zero }
{
    let own_row = PieceRow { rows, piece: 0 };
    let first = close_from(own_row, words[0], 0);
    words[0] = first.word;
    let mut settled = true;
    let mut zero = first.zero;
    let mut waiting: u64 = 0;
    let mut at = 1;
    // No `for` over a range: from one child piece the next stands behind that one's run.
    while at < words.len() {
        if idle(words[0], at, to) {
            return Reported { settled, zero };
        }
        let child = PieceRow { rows, piece: at };
        let stand = child.stand();
        let next = at + child.run();
        waiting = missed(words[0], stand, waiting);
        if !at_rest(words[0], stand, words[at], at, next, from, to) {
            words[at] = pass(words[0], stand, words[at], 0);
            let row = ROW_WORDS * at;
            let below = sweep(
                &rows[row..],
                from.saturating_sub(at),
                to.saturating_sub(at),
                &mut words[at..next],
            );
            let raised = pass(words[at], child.top(), words[0], stand + 1);
            let own = close_after(own_row, raised, words[0]);
            words[0] = own.word;
            settled &= below.settled;
            zero = zero & below.zero & own.zero;
        }
        at = next;
    }
    Reported {
        settled: settled & apart(words[0], waiting),
        zero,
    }
}

// Closes the set of marks by two sweeps. The first `count` words are used, one for each piece.
// The second sweep is left out where the first says that it would change nothing. Answers whether nothing is marked, as
// the last sweep says.
pub fn close_twice(rows: &[u64], count: usize, from: usize, to: usize, words: &mut [u64]) -> bool
    requires { Closable rows.now count from to words.old }
    ensures closed_twice { ClosedTwice rows.now count words.old words.new }
    ensures tells { Tells (AllZero count words.new) result }
{
    let once = sweep(rows, from, to, &mut words[..count]);
    if once.settled {
        return once.zero;
    }
    sweep(rows, 0, count, &mut words[..count]).zero
}
