// The numbers that a match by table gives back: foamlattice packs them for callers in C, who are given no enum.
ghost use Rattle.std.specs.Prelude.{◌≡◌};
ghost use Rattle.running.specs.Answer.{table_numbers};

use tree::refusal::Refusal;

// The refusal's number, 0 for none; whether the table accepts the text.
#[derive(Clone, Copy, Debug, PartialEq, Eq)]
pub struct TableNumbers {
    pub refusal: u8,
    pub matched: bool,
}

// The numbers of an answer.
pub fn numbers_of(answer: Result<bool, Refusal>) -> TableNumbers
    ensures { result ≡ table_numbers answer }
{
    match answer {
        Ok(matched) => TableNumbers {
            refusal: 0,
            matched,
        },
        Err(refusal) => TableNumbers {
            refusal: refusal.number(),
            matched: false,
        },
    }
}
