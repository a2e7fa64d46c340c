// The layout of a tree record: no other file of code knows which byte holds what.
ghost use Rattle.std.specs.Prelude.{◌≡◌, ◌+◌, ◌*◌, ◌%◌, ◌/◌, ◌≤◌, ◌<◌, length};
ghost use Rattle.std.proofs.lemmas.List.Edits.{sets};
ghost use Rattle.tree.specs.Says.{Says};
ghost use Rattle.tree.specs.Limits.{most_labels};
ghost use Rattle.tree.specs.Layout.{
  record_size,
  two_bytes,
  four_numbers,
  labelled_record,
  label_of,
  class_label,
  one_if_class,
  label_with,
  number_at,
  HoldsNumber,
  kind_at,
  character_at,
  left_at,
  right_at,
  piece_at,
  place_at,
};
ghost use Rattle.tree.specs.Places.{with_places, IsRecord};
ghost use Rattle.tree.specs.Comparing.{HoldsFields};

use crate::limits::MOST_PLACE;

// How many bytes a record has.
pub const RECORD_SIZE: usize = 12;

// The kinds of a record. A kind is a byte of a buffer that C lends, where any number can stand, and stays one.
pub const CHARACTER: u8 = 1;

pub const CATENATION: u8 = 2;

pub const UNION: u8 = 3;

pub const STAR: u8 = 4;

pub const CLASS: u8 = 5;

pub const EMPTY: u8 = 6;

// How many bytes a class record has.
pub const CLASS_RECORD_SIZE: usize = 32;

// A character's label, but for the character, a class leaf's, but for its number, and the labels of the other kinds.
pub const CHARACTER_LABEL: u16 = CHARACTER as u16;

pub const CATENATION_LABEL: u16 = CATENATION as u16;

pub const UNION_LABEL: u16 = UNION as u16;

pub const STAR_LABEL: u16 = STAR as u16;

pub const CLASS_LABEL: u16 = CLASS as u16;

pub const EMPTY_LABEL: u16 = EMPTY as u16;

// What stands in the place of a child's record number where there is no child.
pub const NO_CHILD: u16 = 65535;

// Kind and character as one number.
pub fn label_of(kind: u8, character: u8) -> u16
    ensures { result ≡ label_of kind character }
{
    u16::from(kind) + 256 * u16::from(character)
}

// The label of a class leaf with this number.
pub fn class_label(number: usize) -> u16
    requires { number ≤ most_labels }
    ensures { result ≡ class_label number }
{
    CLASS_LABEL + 8 * (number as u16)
}

// 1 for the kind of a class leaf's record.
pub fn one_if_class(kind: u8) -> usize
    ensures { (result ≡ one_if_class kind) × (result ≤ 1) }
{
    usize::from(kind == CLASS)
}

// The label of a record of this kind with `classes` class leaves before it.
pub fn label_with(kind: u8, character: u8, classes: usize) -> u16
    requires { classes ≤ most_labels }
    ensures { result ≡ label_with kind character classes }
{
    if kind == CLASS {
        return class_label(classes);
    }
    label_of(kind, character)
}

// The number in two bytes, the low one first.
fn number_at(list: &[u8], at: usize) -> usize
    requires { at + 1 < length list.now }
    ensures { result ≡ number_at list.now at }
{
    usize::from(u16::from_le_bytes([list[at], list[at + 1]]))
}

// The kind of a record.
pub fn kind_at(list: &[u8], i: usize) -> u8
    requires { record_size * i + record_size ≤ length list.now }
    ensures { result ≡ kind_at list.now i }
{
    list[RECORD_SIZE * i]
}

// Its character.
pub fn character_at(list: &[u8], i: usize) -> u8
    requires { record_size * i + record_size ≤ length list.now }
    ensures { result ≡ character_at list.now i }
{
    list[RECORD_SIZE * i + 1]
}

// The record number of its left or only child. Each number has a function of its own, as `left_at` to `place_at` of
// specs/Layout.antt are: their callers name what they read, not where it stands.
pub fn left_at(list: &[u8], i: usize) -> usize
    requires { record_size * i + record_size ≤ length list.now }
    ensures { result ≡ left_at list.now i }
{
    number_at(list, RECORD_SIZE * i + 2)
}

// The record number of its right child.
pub fn right_at(list: &[u8], i: usize) -> usize
    requires { record_size * i + record_size ≤ length list.now }
    ensures { result ≡ right_at list.now i }
{
    number_at(list, RECORD_SIZE * i + 4)
}

// The number of its piece.
pub fn piece_at(list: &[u8], i: usize) -> usize
    requires { record_size * i + record_size ≤ length list.now }
    ensures { result ≡ piece_at list.now i }
{
    number_at(list, RECORD_SIZE * i + 6)
}

// Its place in the expression.
pub fn place_at(list: &[u8], i: usize) -> usize
    requires { record_size * i + record_size ≤ length list.now }
    ensures { result ≡ place_at list.now i }
{
    number_at(list, RECORD_SIZE * i + 8)
}

// Writes a number into two bytes, the low one first, and nothing else.
fn write_number(out: &mut [u8], at: usize, n: u16)
    requires { at + 2 ≤ length out.old }
    ensures { out.new ≡ sets out.old at (two_bytes n) }
{
    let [low, high] = n.to_le_bytes();
    out[at] = low;
    out[at + 1] = high;
}

// Whether two bytes hold this number.
fn holds_number(list: &[u8], at: usize, n: u16) -> bool
    requires { at + 2 ≤ length list.now }
    ensures { Says (HoldsNumber list.now at n) result }
{
    let [low, high] = n.to_le_bytes();
    list[at] == low && list[at + 1] == high
}

// The four numbers that a record begins with.
#[derive(Clone, Copy)]
struct Numbers {
    // Kind and character.
    first: u16,
    // The left or only child, or the number of a class.
    left: u16,
    right: u16,
    piece: u16,
}

impl Numbers {
    // Those of the record that has this label: of a class leaf the children do not count.
    fn labelled(label: u16, left: u16, right: u16, piece: u16) -> Numbers
        ensures { four_numbers result.first result.left result.right result.piece
            ≡ labelled_record label left right piece }
    {
        if label % 8 == CLASS_LABEL {
            Numbers {
                first: CLASS_LABEL,
                left: label / 8,
                right: NO_CHILD,
                piece,
            }
        } else {
            Numbers {
                first: label,
                left,
                right,
                piece,
            }
        }
    }
}

// Writes the four numbers of a record and the place 0, and nothing else.
fn write_numbers(out: &mut [u8], at: usize, numbers: Numbers)
    requires { at + record_size ≤ length out.old }
    ensures { out.new ≡ sets out.old at
        (four_numbers numbers.first numbers.left numbers.right numbers.piece) }
{
    write_number(out, at, numbers.first);
    write_number(out, at + 2, numbers.left);
    write_number(out, at + 4, numbers.right);
    write_number(out, at + 6, numbers.piece);
    write_number(out, at + 8, 0);
    write_number(out, at + 10, 0);
}

// Writes a record that has this label, and nothing else.
pub fn write_record(out: &mut [u8], i: usize, label: u16, left: u16, right: u16, piece: u16)
    requires { record_size * i + record_size ≤ length out.old }
    ensures { out.new ≡ sets out.old (record_size * i)
        (labelled_record label left right piece) }
{
    write_numbers(
        out,
        RECORD_SIZE * i,
        Numbers::labelled(label, left, right, piece),
    );
}

// Writes places into the records, the first into record 0 and so on, and nothing else.
pub fn write_places(places: &[u16], out: &mut [u8])
    requires { record_size * length places.now ≤ length out.old }
    ensures { out.new ≡ with_places places.now out.old }
{
    for (i, place) in places.iter().enumerate() {
        write_number(out, RECORD_SIZE * i + 8, *place);
    }
}

// Whether the bytes from a place on hold the four numbers of a record, and 0 in the last two.
fn holds_numbers(list: &[u8], at: usize, numbers: Numbers) -> bool
    requires { at + record_size ≤ length list.now }
    ensures { Says (HoldsFields list.now at numbers.first numbers.left numbers.right numbers.piece) result }
{
    holds_number(list, at, numbers.first)
        && holds_number(list, at + 2, numbers.left)
        && holds_number(list, at + 4, numbers.right)
        && holds_number(list, at + 6, numbers.piece)
        && holds_number(list, at + 10, 0)
}

// Whether a record is the one that has this label, these children and this piece, and a place that is not too large.
pub fn is_record(list: &[u8], i: usize, label: u16, left: u16, right: u16, piece: u16) -> bool
    requires { record_size * i + record_size ≤ length list.now }
    ensures { Says (IsRecord list.now i (labelled_record label left right piece)) result }
{
    place_at(list, i) <= MOST_PLACE
        && holds_numbers(
            list,
            RECORD_SIZE * i,
            Numbers::labelled(label, left, right, piece),
        )
}
