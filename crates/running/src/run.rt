// The run of a table over a text, byte by byte: from state 1, and over where state 0 is met.
ghost use Rattle.std.specs.Prelude.{◌≡◌, get_or};
ghost use Rattle.running.specs.Runs.{entry, runs};

// The entry that says where the column of accepting begins: the one after those of the 256 bytes.
pub const ACCEPTING_COLUMN: usize = 256;
// The state that a run starts in.
const START: usize = 1;
// The state where nothing is left.
const NOWHERE: usize = 0;

// An entry of the table, or of a part of it; one past the end counts as 0.
fn entry_at(table: &[u16], place: usize) -> usize
    ensures { result ≡ get_or table.now place 0 }
{
    match table.get(place) {
        Some(entry) => usize::from(*entry),
        None => 0,
    }
}

// The entry of a state in the column that begins where entry `column` says. The part of the table from there on is
// found without the state, so that a byte waits for one load alone, that of its entry.
fn entry_of(table: &[u16], column: usize, state: usize) -> usize
    ensures { result ≡ entry table.now column state }
{
    let begin = entry_at(table, column);
    if table.len() < begin {
        return 0;
    }
    entry_at(&table[begin..], state)
}

// Whether the table accepts the text. From state 0 no byte leads away and it does not accept: the rest is not read.
pub fn runs(table: &[u16], text: &[u8]) -> bool
    ensures { result ≡ runs table.now text.now }
{
    let mut state = START;
    for &byte in text {
        state = entry_of(table, usize::from(byte), state);
        if state == NOWHERE {
            return false;
        }
    }
    entry_of(table, ACCEPTING_COLUMN, state) == 1
}
