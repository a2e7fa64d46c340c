// What a record is, in words, and what it holds.
ghost use Rattle.std.specs.Prelude.{◌+◌, ◌*◌, ◌≤◌, ◌≡◌, length};
ghost use Rattle.tree.specs.Layout.{record_size};
ghost use Rattle.printing.specs.Printer.{HasRoom, Puts};
ghost use Rattle.record_line.specs.Node.{kind_word, pair, holds};

use printing::print::Printer;
use showing::bytes::put_byte;
use tree::layout::{
    CATENATION, CHARACTER, CLASS, STAR, UNION, character_at, kind_at, left_at, right_at,
};

// The word for a kind.
#[tactic(auto, unfolding(crate::specs::Node::kind_word))]
pub fn kind_word(kind: u8) -> &'static [u8]
    ensures { result.now ≡ kind_word kind }
{
    match kind {
        0..=CHARACTER => b"character ",
        CATENATION => b"catenation of ",
        UNION => b"union of ",
        STAR => b"star of ",
        CLASS => b"class ",
        _ => b"empty text",
    }
}

// Prints the numbers of two children.
#[tactic(auto, unfolding(crate::specs::Node::pair))]
fn put_pair(printer: &mut Printer, left: usize, right: usize)
    requires { HasRoom printer.old (length (pair left right)) }
    ensures { Puts printer.old (pair left right) printer.new }
{
    printer.put_number(left);
    printer.put(b" and ");
    printer.put_number(right);
}

// Prints what a record holds: a character, the numbers of its children, or that of its class.
#[tactic(auto, unfolding(crate::specs::Node::holds))]
pub fn put_held(printer: &mut Printer, list: &[u8], i: usize)
    requires inside { record_size * i + record_size ≤ length list.now }
    requires room { HasRoom printer.old (length (holds list.now i)) }
    ensures { Puts printer.old (holds list.now i) printer.new }
{
    match kind_at(list, i) {
        0..=CHARACTER => put_byte(printer, character_at(list, i)),
        CATENATION | UNION => put_pair(printer, left_at(list, i), right_at(list, i)),
        STAR | CLASS => printer.put_number(left_at(list, i)),
        _ => {}
    }
}
