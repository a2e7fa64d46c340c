// A single operand, but for a group: a character, or in the second syntax the dot or a class.
ghost use Rattle.std.specs.Prelude.{◌<◌, ◌≡◌, length, get_or};
ghost use Rattle.operands.specs.Bytes.{second, syntax_of};
ghost use Rattle.operands.specs.Reading.{Begins, CharacterAnswer};

use classes::class::class_end;
use operands::character::{character, leaf};
use operands::syntax::Syntax;
use repeats::notes::Notes;
use tree::layout::class_label;
use tree::refusal::{Refusal, Refused};

// Reads the class at a `[`: 14 there where it is not of the form.
fn class(expr: &[u8], begin: usize, notes: &mut Notes) -> Result<usize, Refused>
    requires within { begin < length expr.now }
    requires bracket { get_or expr.now begin 0 ≡ 91 }
    requires room { Begins expr.now begin 0 }
    ensures answer { CharacterAnswer second notes.old.places expr.now begin
        notes.old.count notes.old.numbers.now notes.new.count notes.new.numbers.now result }
    ensures kind { notes.new.places ≡ notes.old.places }
    ensures same_buffer { notes.new.numbers.ghost_name ≡ notes.old.numbers.ghost_name }
    ensures same_length { length notes.new.numbers.now ≡ length notes.old.numbers.now }
{
    let next = class_end(expr, begin).ok_or(Refused {
        refusal: Refusal::ClassFaulty,
        place: begin,
    })?;
    Ok(leaf(class_label(begin), begin, next, notes))
}

// Reads the operand at a place in the second syntax: 14 at a `]`, 16 at a `}`.
fn second_single(expr: &[u8], at: usize, notes: &mut Notes) -> Result<usize, Refused>
    requires within { at < length expr.now }
    requires character { get_or expr.now at 0 ≡ 40 → ⊥ }
    requires room { Begins expr.now at 0 }
    ensures answer { CharacterAnswer second notes.old.places expr.now at
        notes.old.count notes.old.numbers.now notes.new.count notes.new.numbers.now result }
    ensures kind { notes.new.places ≡ notes.old.places }
    ensures same_buffer { notes.new.numbers.ghost_name ≡ notes.old.numbers.ghost_name }
    ensures same_length { length notes.new.numbers.now ≡ length notes.old.numbers.now }
{
    match expr[at] {
        b'.' => Ok(leaf(class_label(at), at, at + 1, notes)),
        b'[' => class(expr, at, notes),
        b']' => Err(Refused {
            refusal: Refusal::ClassFaulty,
            place: at,
        }),
        b'}' => Err(Refused {
            refusal: Refusal::CountFaulty,
            place: at,
        }),
        _ => character(expr, at, notes, Syntax::Second),
    }
}

// Reads the operand at a place that is no `(`.
pub fn single(expr: &[u8], at: usize, notes: &mut Notes, syntax: Syntax) -> Result<usize, Refused>
    requires within { at < length expr.now }
    requires character { get_or expr.now at 0 ≡ 40 → ⊥ }
    requires room { Begins expr.now at 0 }
    ensures answer { CharacterAnswer (syntax_of syntax) notes.old.places expr.now at
        notes.old.count notes.old.numbers.now notes.new.count notes.new.numbers.now result }
    ensures kind { notes.new.places ≡ notes.old.places }
    ensures same_buffer { notes.new.numbers.ghost_name ≡ notes.old.numbers.ghost_name }
    ensures same_length { length notes.new.numbers.now ≡ length notes.old.numbers.now }
{
    match syntax {
        Syntax::First => character(expr, at, notes, Syntax::First),
        Syntax::Second => second_single(expr, at, notes),
    }
}
