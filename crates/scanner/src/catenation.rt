// A catenation: operands one after the other, up to a `|`, a `)` or the end.
ghost use Rattle.std.specs.Prelude.{◌≡◌, ◌≤◌, length};
ghost use Rattle.operands.specs.Bytes.{syntax_of};
ghost use Rattle.operands.specs.Grammar.{joined};
ghost use Rattle.operands.specs.Reading.{Begins, PartAnswer};
ghost use Rattle.scanner.specs.Rounds.{OperandDue};

use crate::join::put_join;
use crate::operand::operand;
use operands::syntax::Syntax;
use repeats::notes::Notes;
use tree::layout::CATENATION_LABEL;
use tree::refusal::Refused;

// Whether an operand is due at a place, in a catenation that begins at `at`.
fn operand_due(expr: &[u8], at: usize, place: usize) -> bool
    requires { place ≤ length expr.now }
    ensures { OperandDue expr.now at place result }
{
    place == at || (place < expr.len() && !matches!(expr[place], b'|' | b')'))
}

// Reads a catenation from a place on: the place of its node is where its right operand begins. The reader of an operand
// is called at one place only, and that of a catenation too, so that the compiler makes one function of the three: each
// open group then has one frame.
#[cycle(catenation_operand_union)]
pub fn catenation(
    expr: &[u8],
    at: usize,
    depth: usize,
    notes: &mut Notes,
    syntax: Syntax,
) -> Result<usize, Refused>
    requires { Begins expr.now at depth }
    ensures answer { PartAnswer (syntax_of syntax) notes.old.places joined expr.now at depth
        notes.old.count notes.old.numbers.now notes.new.count notes.new.numbers.now result }
    ensures kind { notes.new.places ≡ notes.old.places }
    ensures same_buffer { notes.new.numbers.ghost_name ≡ notes.old.numbers.ghost_name }
    ensures same_length { length notes.new.numbers.now ≡ length notes.old.numbers.now }
{
    let mut place = at;
    // Each operand says where the next one begins, so this goes from place to place and not by an index.
    'operands: while operand_due(expr, at, place) {
        let reading = operand(expr, place, depth, notes, syntax);
        let Ok(next) = reading else {
            return reading;
        };
        put_join(notes, CATENATION_LABEL, at, place);
        place = next;
    }
    Ok(place)
}
