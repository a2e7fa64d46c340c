// Making a table of steps of a record list.
#![tactic(auto)]

pub mod numbers;

ghost use Rattle.making.specs.Answer.{made_numbers};
ghost use Rattle.making.specs.Promise.{Makes};

use preparing::prepare_for;
use tables::TABLE_WORDS;
use tabulating::{Made, tabulate};
use tree::limits::FEW_SLOTS;
use tree::refusal::Refusal;

// Makes a table of steps in the lent one, with room lent for finding its states. Where it does not fit it answers
// `None`, and no entry of the table differs: the table or the room is too short for it, or it would have more than 65,536
// entries. In both cases every word of the room is 0 afterwards. A refusal changes nothing: of a list that is not good,
// or of which some class leaf has no record. There are rows for as many pieces as a list may have: making a table of
// steps takes far longer than setting them to 0.
pub fn make_table(
    list: &[u8],
    classes: &[u8],
    table: &mut [u16],
    room: &mut [u64],
) -> Result<Option<Made>, Refusal>
    ensures { Makes list.now classes.now table.old table.new
        room.old room.new (made_numbers result) }
{
    let mut rows = [0u64; TABLE_WORDS];
    let counts = prepare_for(list, classes, FEW_SLOTS, &mut rows)?;
    Ok(tabulate(&rows, counts.pieces, classes, table, room))
}
