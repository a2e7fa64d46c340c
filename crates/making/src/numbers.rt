// The numbers that the making of a table gives back: foamlattice packs them for callers in C, who are given no enum.
ghost use Rattle.std.specs.Prelude.{◌≡◌};
ghost use Rattle.making.specs.Answer.{made_numbers};

use tabulating::Made;
use tree::refusal::Refusal;

// The refusal's number, 0 for none; whether the table was made; how many states and entries it has.
#[derive(Clone, Copy, Debug, PartialEq, Eq)]
pub struct MadeNumbers {
    pub refusal: u8,
    pub made: bool,
    pub states: usize,
    pub entries: usize,
}

// The numbers of an answer.
pub fn numbers_of(answer: Result<Option<Made>, Refusal>) -> MadeNumbers
    ensures { result ≡ made_numbers answer }
{
    match answer {
        Ok(Some(made)) => MadeNumbers {
            refusal: 0,
            made: true,
            states: made.states,
            entries: made.entries,
        },
        Ok(None) => not_made(0),
        Err(refusal) => not_made(refusal.number()),
    }
}

// No table was made: it is refused with this number, or does not fit.
fn not_made(refusal: u8) -> MadeNumbers
    ensures { result ≡ Rattle.making.specs.Answer.not_made refusal }
{
    MadeNumbers {
        refusal,
        made: false,
        states: 0,
        entries: 0,
    }
}
