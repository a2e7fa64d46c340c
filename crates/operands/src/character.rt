// One character: a byte that stands for itself, or a special byte after a `\`.
ghost use Rattle.std.specs.Prelude.{◌≡◌, false, ◌<◌, ◌≤◌, length, get_or};
ghost use Rattle.tree.specs.Limits.{most_labels};
ghost use Rattle.operands.specs.Bytes.{second, syntax_of, sign_of, sign_of_second, special};
ghost use Rattle.operands.specs.Surroundings.{class_begins};
ghost use Rattle.operands.specs.Reading.{Begins, CharacterAnswer, LeafAnswer};

use crate::syntax::Syntax;
use repeats::notes::Notes;
use tree::layout::{CHARACTER, label_of};
use tree::refusal::{Refusal, Refused};

// Whether a byte is one of those that are special in the second syntax alone.
fn is_second_sign(byte: u8) -> bool
    ensures { result ≡ special (sign_of_second second byte) }
{
    matches!(byte, b'.' | b'[' | b']' | b'+' | b'?' | b'{' | b'}')
}

// Whether a byte is special.
fn is_special(byte: u8, syntax: Syntax) -> bool
    ensures { result ≡ special (sign_of (syntax_of syntax) byte) }
{
    matches!(byte, b'(' | b')' | b'|' | b'*' | b'\\')
        || (syntax == Syntax::Second && is_second_sign(byte))
}

// Notes a leaf, and answers the place after it.
pub fn leaf(label: u16, place: usize, next: usize, notes: &mut Notes) -> usize
    requires { place ≤ most_labels }
    ensures answer { LeafAnswer notes.old.places label place next notes.old.count notes.old.numbers.now
        notes.new.count notes.new.numbers.now result }
    ensures kind { notes.new.places ≡ notes.old.places }
    ensures same_buffer { notes.new.numbers.ghost_name ≡ notes.old.numbers.ghost_name }
    ensures same_length { length notes.new.numbers.now ≡ length notes.old.numbers.now }
{
    notes.put_note(label, place as u16);
    next
}

// Reads the character at a place: 3 where a `|`, `)`, `*`, `+`, `?` or `{` stands there, 7 at a `\` that is last or not
// before a special byte.
pub fn character(
    expr: &[u8],
    at: usize,
    notes: &mut Notes,
    syntax: Syntax,
) -> Result<usize, Refused>
    requires within { at < length expr.now }
    requires character { get_or expr.now at 0 ≡ 40 → ⊥ }
    requires common { class_begins (sign_of (syntax_of syntax) (get_or expr.now at 0)) ≡ false }
    requires room { Begins expr.now at 0 }
    ensures answer { CharacterAnswer (syntax_of syntax) notes.old.places expr.now at
        notes.old.count notes.old.numbers.now notes.new.count notes.new.numbers.now result }
    ensures kind { notes.new.places ≡ notes.old.places }
    ensures same_buffer { notes.new.numbers.ghost_name ≡ notes.old.numbers.ghost_name }
    ensures same_length { length notes.new.numbers.now ≡ length notes.old.numbers.now }
{
    let byte = expr[at];
    if byte == b'\\' {
        let place = at + 1;
        if place == expr.len() {
            return Err(Refused {
                refusal: Refusal::BackslashBeforeNoSign,
                place: at,
            });
        }
        let escaped = expr[place];
        if !is_special(escaped, syntax) {
            return Err(Refused {
                refusal: Refusal::BackslashBeforeNoSign,
                place: at,
            });
        }
        return Ok(leaf(label_of(CHARACTER, escaped), at, place + 1, notes));
    }
    if is_special(byte, syntax) {
        return Err(Refused {
            refusal: Refusal::OperandMissing,
            place: at,
        });
    }
    Ok(leaf(label_of(CHARACTER, byte), at, at + 1, notes))
}
