// A whole expression.
ghost use Rattle.std.specs.Prelude.{◌≡◌, length};
ghost use Rattle.operands.specs.Bytes.{syntax_of};
ghost use Rattle.scanner.specs.Expression.{ExpressionAnswer};

use crate::union::union;
use operands::syntax::Syntax;
use repeats::notes::Notes;
use tree::limits::LONGEST_EXPRESSION;
use tree::refusal::{Refusal, Refused};

// Notes the labels of the tree that an expression stands for, or the places of its nodes, from the start of the notes
// and while there is room: refuses by 1, 2, or the first fault from left to right.
pub fn expression(expr: &[u8], notes: &mut Notes, syntax: Syntax) -> Result<(), Refused>
    ensures answer { ExpressionAnswer (syntax_of syntax) notes.old.places expr.now notes.new.count
        notes.new.numbers.now result }
    ensures kind { notes.new.places ≡ notes.old.places }
    ensures same_buffer { notes.new.numbers.ghost_name ≡ notes.old.numbers.ghost_name }
    ensures same_length { length notes.new.numbers.now ≡ length notes.old.numbers.now }
{
    if expr.is_empty() {
        return Err(Refused {
            refusal: Refusal::ExpressionEmpty,
            place: 0,
        });
    }
    if expr.len() > LONGEST_EXPRESSION {
        return Err(Refused {
            refusal: Refusal::ExpressionTooLong,
            place: LONGEST_EXPRESSION,
        });
    }
    notes.count = 0;
    let next = union(expr, 0, 0, notes, syntax)?;
    if next < expr.len() {
        return Err(Refused {
            refusal: Refusal::ClosingWithoutGroup,
            place: next,
        });
    }
    Ok(())
}
