// Checks an expression and counts its records, pieces and classes, with no buffer lent: two syntaxes, the second with
// the dot, classes, `+`, `?` and counts.
#![tactic(auto)]

pub mod count;

ghost use Rattle.std.specs.Prelude.{◌≡◌};
ghost use Rattle.operands.specs.Bytes.{first, second, syntax_of};
ghost use Rattle.checker.specs.Checked.{checked, counted_numbers};

use count::read_and_count;
use operands::syntax::Syntax;
use repeats::notes::Notes;
use tree::counted::Counts;
use tree::limits::MOST_LABELS;
use tree::refusal::Refused;

// Checks an expression of either syntax.
fn check_by(expr: &[u8], syntax: Syntax) -> Result<Counts, Refused>
    ensures { counted_numbers result ≡ checked (syntax_of syntax) expr.now }
{
    let mut numbers = [0u16; MOST_LABELS];
    let mut notes = Notes::new(&mut numbers, false);
    read_and_count(expr, &mut notes, syntax)
}

// Checks an expression: what `read` refuses without a buffer, or the counts.
pub fn check(expr: &[u8]) -> Result<Counts, Refused>
    ensures { counted_numbers result ≡ checked first expr.now }
{
    check_by(expr, Syntax::First)
}

// Checks an expression that may have the dot and classes: what `read_second` refuses without a buffer, or the counts.
pub fn check_second(expr: &[u8]) -> Result<Counts, Refused>
    ensures { counted_numbers result ≡ checked second expr.now }
{
    check_by(expr, Syntax::Second)
}

#[cfg(test)]
mod tests {
    use super::*;
    use std::test::Fail;

    #[test]
    fn counts_with_lent_notes(rt: HostRuntime) -> Result<(), Fail> {
        let mut numbers = [0u16; MOST_LABELS];
        let mut notes = Notes::new(&mut numbers, false);
        let counts = Counts {
            records: 5,
            pieces: 1,
            classes: 1,
        };
        assert_eq!(rt;
            read_and_count(b"a.b", &mut notes, Syntax::Second),
            Ok(counts)
        );
        assert_eq!(rt; notes.numbers.len(), MOST_LABELS);
        Ok(())
    }
}
