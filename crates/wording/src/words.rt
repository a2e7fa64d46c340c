// A refusal in words.
ghost use Rattle.std.specs.Prelude.{◌≡◌, length};
ghost use Rattle.printing.specs.Printer.{HasRoom, Puts};
ghost use Rattle.wording.specs.RefusalWords.{words, told_line};

use printing::print::Printer;

// The words for the number of a refusal, or for a number that the table of words has no row for. By the number, as
// `showing::refusal` and `words` of specs/RefusalWords.antt answer for every number.
#[tactic(auto, unfolding(crate::specs::RefusalWords::words, crate::specs::RefusalWords::all_refusal_words))]
pub fn words(number: u8) -> &'static [u8]
    ensures { result.now ≡ words number }
{
    match number {
        1 => b"the expression is empty",
        2 => b"the expression has more than 1,024 bytes",
        3 => b"a character, a class or a group has to begin here",
        4 => b"this group is not closed",
        5 => b"no group is open for this ) to close",
        6 => b"more than 32 groups stand one inside the other",
        7 => b"a \\ has to stand before a sign",
        8 => b"too large: the tree has more than 128 pieces",
        9 => b"the buffer is too short",
        10 => b"the list of records is not a good one",
        11 => b"the text has more than 65,536 bytes",
        12 => b"fewer words are lent than the list has pieces",
        13 => b"the words are no marks of this list",
        14 => b"this is no class of the form [a-z] or [^a-z]",
        15 => b"the buffer for the classes is too short",
        16 => b"this is no count of the form {2,4}",
        17 => b"too large: the tree has more than 2,047 nodes",
        _ => b"no such refusal",
    }
}

// Prints the line of a refusal: its number, its place and its words.
#[tactic(auto, unfolding(crate::specs::RefusalWords::told_line))]
pub fn put_told(printer: &mut Printer, number: u8, place: usize)
    requires { HasRoom printer.old (length (told_line number place)) }
    ensures { Puts printer.old (told_line number place) printer.new }
{
    printer.put(b"refused ");
    printer.put_number(usize::from(number));
    printer.put(b" at ");
    printer.put_number(place);
    printer.put(b": ");
    printer.put(words(number));
    printer.put(b"\n");
}
