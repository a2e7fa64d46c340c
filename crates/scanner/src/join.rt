// The node that joins two parts of a catenation or of a union.
ghost use Rattle.std.specs.Prelude.{◌≡◌, ◌≤◌, length};
ghost use Rattle.tree.specs.Limits.{longest_expression};
ghost use Rattle.scanner.specs.Rounds.{Joins};

use repeats::notes::Notes;

// Notes the node that joins the part from `place` on to what was read from `at` on; there is none for the first part.
pub fn put_join(notes: &mut Notes, label: u16, at: usize, place: usize)
    requires { place ≤ longest_expression }
    ensures joined { Joins notes.old.places label at place notes.old.count notes.old.numbers.now
        notes.new.count notes.new.numbers.now }
    ensures kind { notes.new.places ≡ notes.old.places }
    ensures same_buffer { notes.new.numbers.ghost_name ≡ notes.old.numbers.ghost_name }
    ensures same_length { length notes.new.numbers.now ≡ length notes.old.numbers.now }
{
    if place != at {
        notes.put_note(label, place as u16);
    }
}
