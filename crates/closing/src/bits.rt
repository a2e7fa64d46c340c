// The bits of a word: whether one is set, setting it, and going over those that are set.
ghost use Rattle.std.specs.Prelude.{ℕ, ◌^◌, ◌<◌, ◌≡◌, true, ◌⊎◌, ◌↔◌};
ghost use Rattle.std.specs.Iterator.{at_most};
ghost use Rattle.std.specs.Int.Bits.{bit_or};
ghost use Rattle.tables.specs.Words.{word_bits, Bit};
ghost use Rattle.closing.specs.BitsOfWords.Bits.{Tells};
ghost use Rattle.closing.specs.BitsOfWords.LowestBit.{Lowest};
ghost use Rattle.closing.specs.BitsOfWords.Taking.{LowestTaken};

// Whether bit i is set.
pub fn has_bit(word: u64, i: usize) -> bool
    requires { i < word_bits }
    ensures { Tells (Bit word i) result }
{
    (word >> i) % 2 == 1
}

// The word with bit i set too.
pub fn with_bit(word: u64, i: usize) -> u64
    requires { i < word_bits }
    ensures { result ≡ bit_or word (2 ^ i) }
{
    word | (1 << i)
}

// The word with bit i set too where the test says so. With no branch: what a test will say cannot always be foreseen.
pub fn set_where(word: u64, i: usize, test: bool) -> u64
    requires { i < word_bits }
    ensures { (j : ℕ) → Bit result j ↔ (Bit word j ⊎ ((j ≡ i) × (test ≡ true))) }
{
    word | (u64::from(test) << i)
}

// The number of the lowest bit that is set.
pub fn lowest(word: u64) -> usize
    requires { 0 < word }
    ensures { Lowest word result × (result < word_bits) }
{
    word.trailing_zeros() as usize
}

// The numbers of the bits that are set in a word, from the lowest on: the word is what is left of them.
#[derive(Drop)]
pub struct SetBits(pub u64);

impl Iterator for SetBits {
    type Item = usize;

    ghost next_gives = { λ old given new. LowestTaken old.0 given new.0 };

    ghost remaining = { λ left. at_most left.0 };

    fn next(&mut self) -> Option<usize> {
        if self.0 == 0 {
            return None;
        }
        let number = lowest(self.0);
        self.0 &= self.0 - 1;
        Some(number)
    }
}
