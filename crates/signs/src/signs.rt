// The signs after an operand: `*`, and in the second syntax `+`, `?` and `{m,n}`.
ghost use Rattle.std.specs.Prelude.{◌<◌, ◌≡◌, length, get_or};
ghost use Rattle.operands.specs.Bytes.{second, syntax_of};
ghost use Rattle.operands.specs.Reading.{SignsBegin, OneSignAnswer, SignsAnswer};

use counts::count::count;
use operands::syntax::Syntax;
use repeats::notes::Notes;
use tree::layout::STAR_LABEL;
use tree::refusal::{Refusal, Refused};

// Reads the count at a `{` after an operand whose labels begin at `begin`: 16 there where it is not of the form.
fn counted(expr: &[u8], at: usize, notes: &mut Notes, begin: usize) -> Result<usize, Refused>
    requires within { at < length expr.now }
    requires brace { get_or expr.now at 0 ≡ 123 }
    requires room { SignsBegin expr.now at begin notes.old.count }
    ensures answer { OneSignAnswer second notes.old.places expr.now begin at
        notes.old.count notes.old.numbers.now notes.new.count notes.new.numbers.now result }
    ensures kind { notes.new.places ≡ notes.old.places }
    ensures same_buffer { notes.new.numbers.ghost_name ≡ notes.old.numbers.ghost_name }
    ensures same_length { length notes.new.numbers.now ≡ length notes.old.numbers.now }
{
    let found = count(expr, at).ok_or(Refused {
        refusal: Refusal::CountFaulty,
        place: at,
    })?;
    notes.times(begin, found.fewest, found.most, at as u16);
    Ok(found.next)
}

// Reads one of the signs that the second syntax alone has; the same place comes back where none stands there.
fn second_sign(expr: &[u8], at: usize, notes: &mut Notes, begin: usize) -> Result<usize, Refused>
    requires within { at < length expr.now }
    requires other { get_or expr.now at 0 ≡ 42 → ⊥ }
    requires room { SignsBegin expr.now at begin notes.old.count }
    ensures answer { OneSignAnswer second notes.old.places expr.now begin at
        notes.old.count notes.old.numbers.now notes.new.count notes.new.numbers.now result }
    ensures kind { notes.new.places ≡ notes.old.places }
    ensures same_buffer { notes.new.numbers.ghost_name ≡ notes.old.numbers.ghost_name }
    ensures same_length { length notes.new.numbers.now ≡ length notes.old.numbers.now }
{
    match expr[at] {
        b'+' => notes.more(begin, at as u16),
        b'?' => notes.perhaps(at as u16),
        b'{' => return counted(expr, at, notes, begin),
        _ => return Ok(at),
    }
    Ok(at + 1)
}

// Reads one sign at a place; the same place comes back where none stands there.
fn sign(
    expr: &[u8],
    at: usize,
    notes: &mut Notes,
    begin: usize,
    syntax: Syntax,
) -> Result<usize, Refused>
    requires within { at < length expr.now }
    requires room { SignsBegin expr.now at begin notes.old.count }
    ensures answer { OneSignAnswer (syntax_of syntax) notes.old.places expr.now begin at
        notes.old.count notes.old.numbers.now notes.new.count notes.new.numbers.now result }
    ensures kind { notes.new.places ≡ notes.old.places }
    ensures same_buffer { notes.new.numbers.ghost_name ≡ notes.old.numbers.ghost_name }
    ensures same_length { length notes.new.numbers.now ≡ length notes.old.numbers.now }
{
    if expr[at] == b'*' {
        notes.put_note(STAR_LABEL, at as u16);
        return Ok(at + 1);
    }
    match syntax {
        Syntax::First => Ok(at),
        Syntax::Second => second_sign(expr, at, notes, begin),
    }
}

// Reads every sign from a place on, after an operand whose labels begin at `begin`.
pub fn signs(
    expr: &[u8],
    at: usize,
    notes: &mut Notes,
    begin: usize,
    syntax: Syntax,
) -> Result<usize, Refused>
    requires { SignsBegin expr.now at begin notes.old.count }
    ensures answer { SignsAnswer (syntax_of syntax) notes.old.places expr.now begin at
        notes.old.count notes.old.numbers.now notes.new.count notes.new.numbers.now result }
    ensures kind { notes.new.places ≡ notes.old.places }
    ensures same_buffer { notes.new.numbers.ghost_name ≡ notes.old.numbers.ghost_name }
    ensures same_length { length notes.new.numbers.now ≡ length notes.old.numbers.now }
{
    let mut place = at;
    // Each sign says where the next one begins, so this goes from place to place and not by an index.
    while place < expr.len() {
        let next = sign(expr, place, notes, begin, syntax)?;
        if next == place {
            break;
        }
        place = next;
    }
    Ok(place)
}
