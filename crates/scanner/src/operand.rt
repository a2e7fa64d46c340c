// An operand with its signs: a single one, or a group.
ghost use Rattle.std.specs.Prelude.{◌≡◌, ◌≤◌, length};
ghost use Rattle.operands.specs.Bytes.{syntax_of};
ghost use Rattle.operands.specs.Grammar.{starred};
ghost use Rattle.operands.specs.Reading.{Begins, PartAnswer};
ghost use Rattle.scanner.specs.Rounds.{SignFollows};

use crate::union::union;
use operands::syntax::Syntax;
use repeats::notes::Notes;
use signs::signs::signs;
use signs::single::single;
use tree::limits::MOST_GROUPS;
use tree::refusal::{Refusal, Refused};

// Whether a byte that is a sign after an operand, in one syntax or in both, stands at a place. Mostly none does, and
// then the reader of signs need not be called.
fn sign_follows(expr: &[u8], at: usize) -> bool
    requires { at ≤ length expr.now }
    ensures { SignFollows expr.now at result }
{
    at < expr.len() && matches!(expr[at], b'*' | b'+' | b'?' | b'{')
}

// Reads the operand at a place: 3 where none stands there, 4 and 6 at a `(`, 7, 14 and 16.
#[cycle(catenation_operand_union)]
pub fn operand(
    expr: &[u8],
    at: usize,
    depth: usize,
    notes: &mut Notes,
    syntax: Syntax,
) -> Result<usize, Refused>
    requires { Begins expr.now at depth }
    ensures answer { PartAnswer (syntax_of syntax) notes.old.places starred expr.now at depth
        notes.old.count notes.old.numbers.now notes.new.count notes.new.numbers.now result }
    ensures kind { notes.new.places ≡ notes.old.places }
    ensures same_buffer { notes.new.numbers.ghost_name ≡ notes.old.numbers.ghost_name }
    ensures same_length { length notes.new.numbers.now ≡ length notes.old.numbers.now }
{
    if at == expr.len() {
        return Err(Refused {
            refusal: Refusal::OperandMissing,
            place: at,
        });
    }
    let begin = notes.count;
    if expr[at] == b'(' {
        let open = at;
        if depth >= MOST_GROUPS {
            return Err(Refused {
                refusal: Refusal::TooManyGroups,
                place: at,
            });
        }
        let closing = union(expr, open + 1, depth + 1, notes, syntax)?;
        if closing == expr.len() {
            return Err(Refused {
                refusal: Refusal::GroupLeftOpen,
                place: open,
            });
        }
        return signs(expr, closing + 1, notes, begin, syntax);
    }
    let next = single(expr, at, notes, syntax)?;
    if sign_follows(expr, next) {
        return signs(expr, next, notes, begin, syntax);
    }
    Ok(next)
}
