// The numbers that a match and a search give back: foamlattice packs them for callers in C, who are given no enum.
ghost use Rattle.std.specs.Prelude.{◌≡◌};
ghost use Rattle.tree.specs.Refusing.{refusal_number};
ghost use Rattle.finder.specs.Answer.{refusing_match, answering_match, match_numbers, search_numbers};

use matching::part::Span;
use tree::refusal::Refusal;

// The refusal's number, 0 for none, and its place; whether the text matches, or a part of it; that part's start and
// end.
#[derive(Drop)]
pub struct FoundNumbers {
    pub refusal: u8,
    pub place: usize,
    pub matched: bool,
    pub start: usize,
    pub end: usize,
}

fn refusing(refusal: Refusal) -> FoundNumbers
    ensures { result ≡ refusing_match (refusal_number refusal) }
{
    FoundNumbers {
        refusal: refusal.number(),
        place: 0,
        matched: false,
        start: 0,
        end: 0,
    }
}

fn answering(matched: bool) -> FoundNumbers
    ensures { result ≡ answering_match matched }
{
    FoundNumbers {
        refusal: 0,
        place: 0,
        matched,
        start: 0,
        end: 0,
    }
}

// The numbers of a match's answer.
pub fn match_numbers(answer: Result<bool, Refusal>) -> FoundNumbers
    ensures { result ≡ match_numbers answer }
{
    match answer {
        Ok(matched) => answering(matched),
        Err(refusal) => refusing(refusal),
    }
}

// The numbers of a search's answer.
pub fn search_numbers(answer: Result<Option<Span>, Refusal>) -> FoundNumbers
    ensures { result ≡ search_numbers answer }
{
    match answer {
        Ok(Some(Span { start, end })) => FoundNumbers {
            start,
            end,
            ..answering(true)
        },
        Ok(None) => answering(false),
        Err(refusal) => refusing(refusal),
    }
}
