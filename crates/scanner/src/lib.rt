// Reads an expression into the labels of the tree that it stands for, or refuses it by number and place.
#![tactic(auto)]

mod catenation;
pub mod expression;
mod join;
mod operand;
mod union;

#[cfg(test)]
mod tests {
    use crate::expression::expression;
    use operands::character::{character, leaf};
    use operands::syntax::Syntax;
    use repeats::notes::Notes;
    use signs::signs::signs;
    use signs::single::single;
    use std::test::Fail;
    use tree::limits::MOST_LABELS;

    // Places are noted, of the leaf first and then of what each sign adds.
    #[test]
    fn notes_of_signs(rt: HostRuntime) -> Result<(), Fail> {
        let mut numbers = [0u16; MOST_LABELS];
        let mut notes = Notes::new(&mut numbers, true);
        notes.put_note(8, 5);
        notes.perhaps(6);
        assert_eq!(rt; notes.first(3), [5u16, 6, 6].as_slice());
        notes.more(0, 7);
        assert_eq!(rt; notes.count, 8usize);
        notes.times(0, 2, 2, 9);
        assert_eq!(rt; notes.count, 17usize);
        assert_eq!(rt; notes.numbers.len(), MOST_LABELS);
        Ok(())
    }

    #[test]
    fn notes_of_parts(rt: HostRuntime) -> Result<(), Fail> {
        let mut numbers = [0u16; MOST_LABELS];
        let mut notes = Notes::new(&mut numbers, true);
        assert_eq!(rt; character(b"c*?", 0, &mut notes, Syntax::Second), Ok(1));
        assert_eq!(rt; signs(b"c*?", 1, &mut notes, 0, Syntax::Second), Ok(3));
        assert_eq!(rt; leaf(8, 3, 4, &mut notes), 4usize);
        assert_eq!(rt; single(b"b.", 1, &mut notes, Syntax::Second), Ok(2));
        assert_eq!(rt; notes.first(6), [0u16, 1, 2, 2, 3, 1].as_slice());
        assert_eq!(rt; notes.numbers.len(), MOST_LABELS);
        Ok(())
    }

    #[test]
    fn notes_of_an_expression(rt: HostRuntime) -> Result<(), Fail> {
        let mut numbers = [0u16; MOST_LABELS];
        let mut notes = Notes::new(&mut numbers, true);
        assert_eq!(rt; expression(b"a|bc*", &mut notes, Syntax::First), Ok(()));
        assert_eq!(rt; notes.first(6), [0u16, 2, 3, 4, 3, 1].as_slice());
        assert_eq!(rt; notes.numbers.len(), MOST_LABELS);
        Ok(())
    }
}
