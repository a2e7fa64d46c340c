// A union: catenations with `|` between them, up to a `)` or the end.
ghost use Rattle.std.specs.Prelude.{◌≡◌, ◌≤◌, length};
ghost use Rattle.tree.specs.Limits.{longest_expression};
ghost use Rattle.operands.specs.Bytes.{syntax_of};
ghost use Rattle.operands.specs.Grammar.{united};
ghost use Rattle.operands.specs.Reading.{Begins, PartAnswer};
ghost use Rattle.scanner.specs.Rounds.{BranchDue, BranchBegins};

use crate::catenation::catenation;
use crate::join::put_join;
use operands::syntax::Syntax;
use repeats::notes::Notes;
use tree::layout::UNION_LABEL;
use tree::refusal::Refused;

// Whether a branch is due at a place, in a union that begins at `at`.
fn branch_due(expr: &[u8], at: usize, place: usize) -> bool
    requires { place ≤ length expr.now }
    ensures { BranchDue expr.now at place result }
{
    place == at || (place < expr.len() && expr[place] == b'|')
}

// Where the branch begins that is due at a place: the first one there, another after its `|`.
fn branch_begin(at: usize, place: usize) -> usize
    requires { place ≤ longest_expression }
    ensures { BranchBegins at place result }
{
    if place == at { at } else { place + 1 }
}

// Reads a union from a place on: the place of its node is its `|`. It is read as a catenation is; one function for both
// would have to be told when a part is due, where it begins, who reads it, and its label.
#[cycle(catenation_operand_union)]
pub fn union(
    expr: &[u8],
    at: usize,
    depth: usize,
    notes: &mut Notes,
    syntax: Syntax,
) -> Result<usize, Refused>
    requires { Begins expr.now at depth }
    ensures answer { PartAnswer (syntax_of syntax) notes.old.places united expr.now at depth
        notes.old.count notes.old.numbers.now notes.new.count notes.new.numbers.now result }
    ensures kind { notes.new.places ≡ notes.old.places }
    ensures same_buffer { notes.new.numbers.ghost_name ≡ notes.old.numbers.ghost_name }
    ensures same_length { length notes.new.numbers.now ≡ length notes.old.numbers.now }
{
    let mut place = at;
    // Each branch says where the next one begins, so this goes from place to place and not by an index.
    'branches: while branch_due(expr, at, place) {
        let begin = branch_begin(at, place);
        let reading = catenation(expr, begin, depth, notes, syntax);
        let Ok(next) = reading else {
            return reading;
        };
        put_join(notes, UNION_LABEL, at, place);
        place = next;
    }
    Ok(place)
}
