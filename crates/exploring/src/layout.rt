// How the room is shared out among the states, and how their marks are compared.
ghost use Rattle.std.specs.Prelude.{◌+◌, ◌*◌, ◌≤◌, ◌<◌, ◌≡◌, length};
ghost use Rattle.tree.specs.Limits.{most_pieces};
ghost use Rattle.closing.specs.BitsOfWords.Bits.{Tells};
ghost use Rattle.exploring.specs.Keys.{SameUnder, number_under};
ghost use Rattle.exploring.specs.Room.{marks_of};

use tree::limits::MOST_PIECES;

// The room has for each of `most` states first a word for its number, then for each its marks, of `count` words, and
// then the entries. Marks are compared under the masks.
#[derive(Drop)]
pub struct Layout {
    pub masks: [u64; MOST_PIECES],
    pub count: usize,
    pub most: usize,
    ghost few: { count ≤ most_pieces },
}

impl Layout {
    // The number by which words are found again: where words agree under the masks, their numbers do.
    pub fn number_of(&self, words: &[u64; MOST_PIECES]) -> u64
        ensures { result ≡ number_under self.now.masks words.now self.now.count }
    {
        let mut number: u64 = 0;
        for k in 0..self.count {
            let joined = number ^ (words[k] & self.masks[k]);
            number = joined ^ (joined << 13) ^ (joined >> 7);
        }
        number
    }

    // The marks of state 1 + i.
    pub fn marks<'r>(&self, room: &'r [u64], i: usize) -> &'r [u64]
        requires { (i < self.now.most) × (self.now.most + self.now.count * self.now.most ≤ length room.now) }
        ensures { result.now ≡ marks_of self.now.count self.now.most room.now i }
    {
        let at = self.most + self.count * i;
        &room[at..at + self.count]
    }

    // Whether the marks of a state agree with the words under the masks.
    pub fn agree(&self, marks: &[u64], words: &[u64; MOST_PIECES]) -> bool
        requires { self.now.count ≤ length marks.now }
        ensures { Tells (SameUnder self.now.masks self.now.count marks.now words.now) result }
    {
        (0..self.count).all(|k| marks[k] & self.masks[k] == words[k] & self.masks[k])
    }
}
