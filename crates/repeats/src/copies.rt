// The labels of an operand, or the places of its nodes, which are noted last, become those of the tree that `+`, `?` or
// a count makes of it.
ghost use Rattle.std.specs.Prelude.{[], ◌∷◌, ◌++◌, ◌+◌, ◌-◌, ◌≤◌, ◌≡◌, length};
ghost use Rattle.language.specs.PlacedStandsFor.{placed_repeated, placed_perhaps, placed_times};
ghost use Rattle.tree.specs.Leaf.{empty_text};
ghost use Rattle.repeats.specs.Noted.{note};
ghost use Rattle.repeats.specs.Labelled.{
  Appended,
  Relabels,
  RelabelsFrom,
  Copies,
  question_notes,
  copy_end,
  copied,
};

use crate::notes::{NO_ROOM, Notes};
use tree::layout::{CATENATION_LABEL, EMPTY_LABEL, STAR_LABEL, UNION_LABEL};
use tree::limits::MOST_LABELS;

impl Notes<'_> {
    // Writes what is noted of two more nodes that a sign adds.
    fn put_two(&mut self, first: u16, second: u16, place: u16)
        ensures written { Appended self.old.numbers.now self.old.count
            (note self.old.places first place ∷ note self.old.places second place ∷ [])
            self.new.count self.new.numbers.now }
        ensures kind { self.new.places ≡ self.old.places }
        ensures same_buffer { self.new.numbers.ghost_name ≡ self.old.numbers.ghost_name }
        ensures same_length { length self.new.numbers.now ≡ length self.old.numbers.now }
    {
        self.put_note(first, place);
        self.put_note(second, place);
    }

    // Turns the tree whose notes stand last into the union of it and the empty text.
    pub fn perhaps(&mut self, place: u16)
        ensures added { Appended self.old.numbers.now self.old.count (question_notes self.old.places place)
            self.new.count self.new.numbers.now }
        ensures turned { Relabels self.old.places self.old.count self.old.numbers.now
            (placed_perhaps empty_text place) self.new.count self.new.numbers.now }
        ensures kind { self.new.places ≡ self.old.places }
        ensures same_buffer { self.new.numbers.ghost_name ≡ self.old.numbers.ghost_name }
        ensures same_length { length self.new.numbers.now ≡ length self.old.numbers.now }
    {
        self.put_two(EMPTY_LABEL, UNION_LABEL, place);
    }

    // Writes a copy of a run of labels or places.
    fn copy_run(&mut self, begin: usize, size: usize)
        requires { begin + size ≤ self.old.count }
        ensures written { Copies self.old.numbers.now begin size self.old.count (λ run. run)
            self.new.count self.new.numbers.now }
        ensures kind { self.new.places ≡ self.old.places }
        ensures same_buffer { self.new.numbers.ghost_name ≡ self.old.numbers.ghost_name }
        ensures same_length { length self.new.numbers.now ≡ length self.old.numbers.now }
    {
        if self.count + size > MOST_LABELS {
            self.count = NO_ROOM;
            return;
        }
        self.numbers.copy_within(begin..begin + size, self.count);
        self.count += size;
    }

    // Turns the tree whose notes begin at `begin` and stand last into its catenation with its star.
    pub fn more(&mut self, begin: usize, place: u16)
        requires { begin ≤ self.old.count }
        ensures turned { RelabelsFrom self.old.places begin self.old.count self.old.numbers.now
            (placed_repeated place) self.new.count self.new.numbers.now }
        ensures kind { self.new.places ≡ self.old.places }
        ensures same_buffer { self.new.numbers.ghost_name ≡ self.old.numbers.ghost_name }
        ensures same_length { length self.new.numbers.now ≡ length self.old.numbers.now }
    {
        self.copy_run(begin, self.count - begin);
        self.put_two(STAR_LABEL, CATENATION_LABEL, place);
    }

    // Writes what ends a copy that follows: the notes of its `?`, if it has one, and the catenation's. `with_question` is a
    // Bool, as `copy_end` has it.
    fn end_copy(&mut self, with_question: bool, place: u16)
        ensures written { Appended self.old.numbers.now self.old.count
            (copy_end self.old.places place with_question) self.new.count self.new.numbers.now }
        ensures kind { self.new.places ≡ self.old.places }
        ensures same_buffer { self.new.numbers.ghost_name ≡ self.old.numbers.ghost_name }
        ensures same_length { length self.new.numbers.now ≡ length self.old.numbers.now }
    {
        if with_question {
            self.perhaps(place);
        }
        self.put_note(CATENATION_LABEL, place);
    }

    // Writes n copies of a run, each catenated to what stands before it.
    fn follow(&mut self, begin: usize, size: usize, n: usize, with_question: bool, place: u16)
        requires { begin + size ≤ self.old.count }
        ensures written { Copies self.old.numbers.now begin size self.old.count
            (λ run. copied n (run ++ copy_end self.old.places place with_question))
            self.new.count self.new.numbers.now }
        ensures kind { self.new.places ≡ self.old.places }
        ensures same_buffer { self.new.numbers.ghost_name ≡ self.old.numbers.ghost_name }
        ensures same_length { length self.new.numbers.now ≡ length self.old.numbers.now }
    {
        for _ in 0..n {
            self.copy_run(begin, size);
            self.end_copy(with_question, place);
        }
    }

    // Turns the tree whose notes begin at `begin` and stand last into `fewest` of it, then as many as are left to
    // `most`, each with a `?`, catenated to the left.
    pub fn times(&mut self, begin: usize, fewest: usize, most: usize, place: u16)
        requires { (begin ≤ self.old.count) × (fewest ≤ most) × (1 ≤ most) }
        ensures turned { RelabelsFrom self.old.places begin self.old.count self.old.numbers.now
            (placed_times empty_text place fewest most) self.new.count self.new.numbers.now }
        ensures kind { self.new.places ≡ self.old.places }
        ensures same_buffer { self.new.numbers.ghost_name ≡ self.old.numbers.ghost_name }
        ensures same_length { length self.new.numbers.now ≡ length self.old.numbers.now }
    {
        let size = self.count - begin;
        if fewest == 0 {
            self.perhaps(place);
            self.follow(begin, size, most - 1, true, place);
            return;
        }
        self.follow(begin, size, fewest - 1, false, place);
        self.follow(begin, size, most - fewest, true, place);
    }
}
