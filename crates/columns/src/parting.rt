// The bytes in groups, each told by its least byte, and the groups parted by one leaf after the other.
ghost use Rattle.std.specs.Prelude.{◌+◌, ◌*◌, ◌≤◌, ◌<◌, ◌≡◌, true, false, length, get_or};
ghost use Rattle.machines.specs.Columns.{byte_count};
ghost use Rattle.columns.specs.Parting.{place_count, none, Comes, Parted, NotedToo, LookedAt};

use crate::BYTE_COUNT;
use moving::classes::takes_byte;

// How many places there are: two for each group, for the bytes that a leaf takes and for those that it does not.
const PLACE_COUNT: usize = 512;

// What stands at a place to which no byte has come.
const NONE: u16 = 256;

// Numbers of leaves below this one are noted, so that none is looked at twice: those of all characters are.
pub const KNOWN_COUNT: usize = 514;

// The place of a byte of the group that begins with `first`.
fn place_of(first: u8, takes: bool) -> usize
    ensures { (takes ≡ true → result ≡ 2 * first + 1) × (takes ≡ false → result ≡ 2 * first) × (result < place_count) }
{
    2 * usize::from(first) + usize::from(takes)
}

// The first byte that came to the place: this one where none has.
fn first_at(firsts: &mut [u16; PLACE_COUNT], place: usize, byte: u8) -> u8
    requires { (place < place_count) × (get_or firsts.old place 0 ≤ none) }
    ensures { Comes firsts.old firsts.new place byte result }
{
    if firsts[place] == NONE {
        firsts[place] = u16::from(byte);
        return byte;
    }
    firsts[place] as u8
}

// Parts the groups by the leaf of this number: those of its bytes that the leaf takes, and those that it does not.
fn part(classes: &[u8], number: u16, least: &mut [u8; BYTE_COUNT])
    requires { length least.old ≡ byte_count }
    ensures { Parted classes.now number least.old least.new }
{
    let mut firsts = [NONE; PLACE_COUNT];
    for (byte, first) in least.iter_mut().enumerate() {
        let takes = takes_byte(classes, number, byte as u8);
        let place = place_of(*first, takes);
        *first = first_at(&mut firsts, place, byte as u8);
    }
}

// Whether the number is not noted yet; it is then noted, if it is one of those that are.
fn first_time(known: &mut [u8; KNOWN_COUNT], number: u16) -> bool
    ensures { (result ≡ false → get_or known.old number 0 ≡ 1)
        × NotedToo number known.old known.new }
{
    let at = usize::from(number);
    if at < KNOWN_COUNT {
        if known[at] == 1 {
            return false;
        }
        known[at] = 1;
    }
    true
}

// Looks at the leaf of this number: parts the groups by it, unless that was done before.
pub fn look_at(
    classes: &[u8],
    number: u16,
    known: &mut [u8; KNOWN_COUNT],
    least: &mut [u8; BYTE_COUNT],
)
    requires { length least.old ≡ byte_count }
    ensures noted_too { NotedToo number known.old known.new }
    ensures looked_at { LookedAt classes.now number known.old least.old
        least.new }
{
    if first_time(known, number) {
        part(classes, number, least);
    }
}
