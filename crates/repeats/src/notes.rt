// What is noted of the nodes of a tree, one after the other. Once there is no room nothing more is written, and the
// count stays one past the most.
ghost use Rattle.std.specs.Prelude.{[], ◌∷◌, ◌≡◌, ◌≤◌, length, take};
ghost use Rattle.tree.specs.Limits.{most_labels, slot_count};
ghost use Rattle.repeats.specs.Noted.{note};
ghost use Rattle.repeats.specs.Labelled.{Appended};

use crate::note::note;
use tree::limits::MOST_LABELS;

// The count that says that there is no room.
pub const NO_ROOM: usize = MOST_LABELS + 1;

// What is noted of the nodes of a tree, in the order of its records.
#[derive(Drop)]
pub struct Notes<'a> {
    // Their labels, or their places, from the start of a slice that is lent.
    pub numbers: &'a mut [u16],
    // How many are noted; one more than there is room for where they do not fit.
    pub count: usize,
    // Whether places are noted: a Bool, as `noted` has it, over which theorems of the readers above are stated.
    pub places: bool,
    // There is room for the most labels, and no more are counted than one past them.
    pub ghost long: { most_labels ≤ length numbers.now },
    pub ghost few: { count ≤ slot_count },
}

impl<'a> Notes<'a> {
    // Nothing is noted yet.
    pub fn new(numbers: &'a mut [u16], places: bool) -> Notes<'a>
        requires { most_labels ≤ length numbers.old }
        ensures same_buffer { result.numbers.ghost_name ≡ numbers.entry.ghost_name }
        ensures front { result.numbers.now ≡ numbers.old }
        ensures none { result.count ≡ 0 }
        ensures kind { result.places ≡ places }
    {
        Notes {
            numbers,
            count: 0,
            places,
        }
    }

    // The first so many of the numbers.
    pub fn first(&self, count: usize) -> &[u16]
        requires { count ≤ most_labels }
        ensures { result.now ≡ take count self.now.numbers.now }
    {
        &self.numbers[..count]
    }

    // Writes one more number.
    fn put(&mut self, number: u16)
        ensures written { Appended self.old.numbers.now self.old.count (number ∷ [])
            self.new.count self.new.numbers.now }
        ensures kind { self.new.places ≡ self.old.places }
        ensures same_buffer { self.new.numbers.ghost_name ≡ self.old.numbers.ghost_name }
        ensures same_length { length self.new.numbers.now ≡ length self.old.numbers.now }
    {
        let count = self.count;
        if count >= MOST_LABELS {
            self.count = NO_ROOM;
            return;
        }
        self.numbers[count] = number;
        self.count = count + 1;
    }

    // Writes what is noted of one more node: its label or its place.
    pub fn put_note(&mut self, label: u16, place: u16)
        ensures written { Appended self.old.numbers.now self.old.count (note self.old.places label place ∷ [])
            self.new.count self.new.numbers.now }
        ensures kind { self.new.places ≡ self.old.places }
        ensures same_buffer { self.new.numbers.ghost_name ≡ self.old.numbers.ghost_name }
        ensures same_length { length self.new.numbers.now ≡ length self.old.numbers.now }
    {
        self.put(note(label, place, self.places));
    }
}
