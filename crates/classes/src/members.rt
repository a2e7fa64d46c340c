// The values of a class, one number for each: 1 where the class takes it, else 0.
ghost use Rattle.std.specs.Prelude.{◌≡◌, ◌+◌, ◌≤◌, ◌<◌, length};
ghost use Rattle.tree.specs.Layout.{class_record_size};
ghost use Rattle.classes.specs.Members.{value_count, EveryValue, Put, ZeroOrOne, eight_of, RecordedUpTo};

// How many values a byte has.
pub const VALUE_COUNT: usize = 256;

// Gives the values from the first to the last this number.
pub fn set_range(members: &mut [u8], first: usize, last: usize, value: u8)
    requires { (first ≤ last) × (last < length members.old) }
    ensures { Put members.old members.new first (last + 1) value }
{
    members[first..=last].fill(value);
}

// Eight numbers as a byte, the first at the low end.
fn eight(members: &[u8], at: usize) -> u8
    requires { (at + 8 ≤ value_count) × ZeroOrOne members.now }
    ensures { result ≡ eight_of members.now at }
{
    let high = members[at + 4]
        + 2 * (members[at + 5] + 2 * (members[at + 6] + 2 * members[at + 7]));
    members[at] + 2 * (members[at + 1] + 2 * (members[at + 2] + 2 * (members[at + 3] + 2 * high)))
}

// Writes a class record: value v at bit v % 8 of byte v / 8.
pub fn write_class_record(members: &[u8], out: &mut [u8])
    requires { ZeroOrOne members.now × (length out.old ≡ class_record_size) }
    ensures { RecordedUpTo members.now out.new class_record_size }
{
    for (i, byte) in out.iter_mut().enumerate() {
        *byte = eight(members, 8 * i);
    }
}
