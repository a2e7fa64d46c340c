// A piece's codes, filled in by a walk of the piece's own tree: for each state where its empty transitions lead, or
// which leaf starts there.
ghost use Rattle.std.specs.Prelude.{◌≡◌, ◌+◌, ◌*◌, ◌-◌, ◌<◌, ◌≤◌, length, set, replicate};
ghost use Rattle.tree.specs.Limits.{most_pieces, most_records, most_states};
ghost use Rattle.tables.specs.Plan.{row_size, jumps_to, leads_and_jumps};
ghost use Rattle.tables.specs.Entries.{thrice};
ghost use Rattle.tables.specs.Filling.{SameLengths, begin_code, left_exit, right_exit, tables, stand_entries};
ghost use Rattle.tables.specs.Walking.{code_at, CodeReadable, SiteVisited, SiteVisitable};

use crate::ROW_SIZE;
use tree::layout::{
    CATENATION, CHARACTER, CLASS, EMPTY, STAR, character_at, kind_at, left_at, piece_at, right_at,
};
use tree::limits::MOST_PIECES;

// What the walks of the pieces fill in.
#[derive(Drop)]
pub struct Tables {
    // The codes of the states of the piece that is walked.
    pub codes: [u16; ROW_SIZE],
    // Of each child piece that was met, the number of its stand-in's start.
    pub stands: [u8; MOST_PIECES],
    // And its root's record.
    pub roots: [u16; MOST_PIECES],
}

// The code of a state that leads to the next one and nowhere else.
const LEADS_ON: u16 = 1;

// The code of a state that jumps, and does not lead to the next one.
fn jumps_to(target: usize) -> u16
    requires { target < most_states }
    ensures { result ≡ jumps_to target }
{
    4 * target as u16 + 2
}

// The code of a state that leads to the next one and jumps.
fn leads_and_jumps(target: usize) -> u16
    requires { target < most_states }
    ensures { result ≡ leads_and_jumps target }
{
    jumps_to(target) + LEADS_ON
}

// The code of a node's start, by its kind. This and the two codes after it have a function each, as `begin_code`,
// `right_exit` and `left_exit` of specs/Filling.antt are.
fn begin_code(kind: u8, middle: usize) -> u16
    requires { middle < most_states }
    ensures { result ≡ begin_code kind middle }
{
    if kind == CATENATION {
        LEADS_ON
    } else {
        leads_and_jumps(middle)
    }
}

// The code of its right or only child's accepting state.
fn right_exit(kind: u8, at: usize) -> u16
    requires { at + 1 < most_states }
    ensures { result ≡ right_exit kind at }
{
    if kind == STAR {
        leads_and_jumps(at + 1)
    } else {
        LEADS_ON
    }
}

// The code of its left child's accepting state.
fn left_exit(kind: u8, last: usize) -> u16
    requires { last < most_states }
    ensures { result ≡ left_exit kind last }
{
    if kind == CATENATION {
        LEADS_ON
    } else {
        jumps_to(last)
    }
}

// The code of a character's start: its number is even, and not 0.
fn character_code(character: u8) -> u16
    ensures { result ≡ 4 * (2 * (character + 1)) }
{
    8 * (u16::from(character) + 1)
}

// The code of a class's start by the class's number: odd above the two lowest bits.
fn class_code(number: usize) -> u16
    requires { number < most_records }
    ensures { result ≡ 4 * (2 * number + 1) }
{
    (8 * number + 4) as u16
}

// The code of a record's leaf, or 0 where the record is not a leaf's.
fn code_at(list: &[u8], node: usize, kind: u8) -> u16
    requires { CodeReadable list.now node kind }
    ensures { result ≡ code_at list.now node }
{
    match kind {
        CHARACTER => character_code(character_at(list, node)),
        CLASS => class_code(left_at(list, node)),
        EMPTY => LEADS_ON,
        _ => 0,
    }
}

// The code of a leaf's start, numbered `at`. Gives the number after its last state's.
fn leaf(code: u16, at: usize, codes: &mut [u16]) -> usize
    requires { (row_size ≤ length codes.old) × (at + 2 ≤ most_states) }
    ensures value { result ≡ at + 2 }
    ensures codes_after { codes.new ≡ set codes.old at code }
{
    codes[at] = code;
    at + 2
}

// The code of the start of the stand-in of the piece `child`, whose root's record is `node`, and what is told of that
// piece.
fn stand(
    child: usize,
    node: usize,
    at: usize,
    codes: &mut [u16],
    stands: &mut [u8],
    roots: &mut [u16],
) -> usize
    requires child_in_bounds { (child < length stands.old) × (child < length roots.old) × (node < most_records) }
    requires row_size_in_bounds { (row_size ≤ length codes.old) × (at + 2 ≤ most_states) }
    ensures value { result ≡ at + 2 }
    ensures roots_after { tables codes.new stands.new roots.new
        ≡ stand_entries (tables codes.old stands.old roots.old)
        at child at node }
{
    codes[at] = 0;
    stands[child] = at as u8;
    roots[child] = node as u16;
    at + 2
}

// The codes that a node gives when those of its children are there: its start's and its children's accepting states'.
fn join(kind: u8, at: usize, middle: usize, last: usize, codes: &mut [u16]) -> usize
    requires { (row_size ≤ length codes.old) × (at < middle) × (middle ≤ last)
        × (last < most_states) }
    ensures value { result ≡ last + 1 }
    ensures codes_after { codes.new
        ≡ thrice codes.old at (middle - 1)
        (last - 1) (begin_code kind middle) (left_exit kind last) (right_exit kind at) }
{
    let begin = begin_code(kind, middle);
    let left = left_exit(kind, last);
    let right = right_exit(kind, at);
    codes[at] = begin;
    codes[middle - 1] = left;
    codes[last - 1] = right;
    last + 1
}

// The codes of the part of a piece at and below a record, from the number `at` on, but for that of its accepting state.
// Gives the number after its last state's. A record of another piece is a stand-in's. The three tables may be lent with
// more room than a piece needs, and with less than `Tables` has for child pieces that are not met.
pub fn fill(
    list: &[u8],
    node: usize,
    piece: usize,
    at: usize,
    codes: &mut [u16],
    stands: &mut [u8],
    roots: &mut [u16],
) -> usize
    requires { SiteVisitable list.now node piece at (tables codes.old stands.old roots.old) }
    ensures { SiteVisited list.now node piece at
        (tables codes.old stands.old roots.old)
        (tables codes.new stands.new roots.new) result }
{
    let own = piece_at(list, node);
    if own != piece {
        return stand(own, node, at, codes, stands, roots);
    }
    let kind = kind_at(list, node);
    let code = code_at(list, node, kind);
    if code != 0 {
        return leaf(code, at, codes);
    }
    let left = left_at(list, node);
    let middle = fill(list, left, piece, at + 1, codes, stands, roots);
    if kind == STAR {
        return join(kind, at, middle, middle, codes);
    }
    let right = right_at(list, node);
    let last = fill(list, right, piece, middle, codes, stands, roots);
    join(kind, at, middle, last, codes)
}

impl Tables {
    // Tables of zeros.
    pub fn new() -> Tables
        ensures { result ≡ tables (replicate row_size 0) (replicate most_pieces 0) (replicate most_pieces 0) }
    {
        Tables {
            codes: [0; ROW_SIZE],
            stands: [0; MOST_PIECES],
            roots: [0; MOST_PIECES],
        }
    }

    // The same in these tables.
    pub fn fill(&mut self, list: &[u8], node: usize, piece: usize, at: usize) -> usize
        requires { SiteVisitable list.now node piece at self.old }
        ensures visited { SiteVisited list.now node piece at self.old self.new result }
        ensures same_lengths { SameLengths self.old self.new }
    {
        fill(
            list,
            node,
            piece,
            at,
            &mut self.codes,
            &mut self.stands,
            &mut self.roots,
        )
    }
}
