// Match and search over the rows of a list, by one call.
#![tactic(auto)]

ghost use Rattle.language.specs.Tree.{Tree};
ghost use Rattle.tree.specs.Leaf.{Leaf, Matches};
ghost use Rattle.tables.specs.Tables.{Prepared, Ready};
ghost use Rattle.finding.specs.Sought.{FoundOf};

use matching::part::{Span, first_part};
use matching::text::text_matches;

// What is looked for in a text.
#[derive(Clone, Copy, Debug, PartialEq, Eq)]
pub enum Sought {
    // The whole text.
    WholeText,
    // The part that starts earliest and then ends furthest.
    FirstPart,
}

// What is sought, where it is in the language. An empty text has no other part than itself: for such a one it calls
// itself, so that match and search have stack frames of their own.
pub fn find_part(
    rows: &[u64],
    count: usize,
    classes: &[u8],
    text: &[u8],
    sought: Sought,
) -> Option<Span>
    requires { Ready rows.now count }
    ensures { (t : Tree Leaf) → Prepared t rows.now count
        → FoundOf (Matches classes.now t) text.now sought result }
{
    match sought {
        Sought::FirstPart => first_part(rows, count, classes, text),
        Sought::WholeText if text.is_empty() => {
            find_part(rows, count, classes, text, Sought::FirstPart)
        }
        Sought::WholeText => {
            let matched = text_matches(rows, count, classes, text);
            matched.then_some(Span {
                start: 0,
                end: text.len(),
            })
        }
    }
}
