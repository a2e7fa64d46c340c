// The numbers of an answer: foamlattice packs them for callers in C, who are given no enum.
ghost use Rattle.std.specs.Prelude.{◌≡◌};
ghost use Rattle.marks.specs.Answer.{marks_numbers};

use stepping::inner::Told;
use tree::refusal::Refusal;

// What a start or a step gives back in numbers.
#[derive(Drop)]
pub struct MarksNumbers {
    // The refusal's number, 0 for none.
    pub refusal: u8,
    // Its place.
    pub place: usize,
    // Whether the root's accepting state is now marked.
    pub accepting: bool,
    // Whether nothing is left: no state is marked.
    pub nothing: bool,
}

// The numbers of an answer.
pub fn numbers_of(answer: Result<Told, Refusal>) -> MarksNumbers
    ensures { result ≡ marks_numbers answer }
{
    match answer {
        Ok(told) => MarksNumbers {
            refusal: 0,
            place: 0,
            accepting: told.accepting,
            nothing: told.nothing,
        },
        Err(refusal) => MarksNumbers {
            refusal: refusal.number(),
            place: 0,
            accepting: false,
            nothing: false,
        },
    }
}
