// An answer in one number: a refusal's number, a flag and two numbers of 24 bits.
#![tactic(auto)]

ghost use Rattle.std.specs.Prelude.{◌+◌, ◌*◌, ◌≤◌, ◌<◌, ◌≡◌, cond};
ghost use Rattle.one_number.specs.Packed.{packed};

// A refusal's number, a flag and two numbers of 24 bits, in one number.
pub fn pack(number: u8, flag: bool, x: usize, y: usize) -> u64
    requires narrow_x { x < 16777216 }
    requires narrow_y { y < 16777216 }
    ensures { result ≡ packed number (cond flag 1 0) x y }
{
    u64::from(number) + 256 * u64::from(flag) + 65536 * x as u64 + 1099511627776 * y as u64
}

// In y the count of classes stands above that of pieces, by this factor.
const CLASSES_PART: usize = 256;

// The counts of what was read: x is that of records, y those of pieces and of classes.
pub fn pack_counts(records: usize, pieces: usize, classes: usize) -> u64
    requires few_records { records < 65536 }
    requires few_pieces { pieces < 256 }
    requires few_classes { classes < 32768 }
    ensures { result ≡ packed 0 0 records (pieces + 256 * classes) }
{
    pack(0, false, records, pieces + CLASSES_PART * classes)
}
