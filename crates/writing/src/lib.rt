// Writing a table of steps out of the room where its states were found.
#![tactic(auto)]

ghost use Rattle.std.specs.Prelude.{ℕ, ◌+◌, ◌*◌, ◌≤◌, ◌<◌, ◌≡◌, length, get_or};
ghost use Rattle.machines.specs.Columns.{byte_count};
ghost use Rattle.machines.specs.TableOf.{heading, most_entries};
ghost use Rattle.tables.specs.Words.{word_bits};
ghost use Rattle.writing.specs.Filled.{Filled, RowsFilled, after_zero};
ghost use Rattle.writing.specs.Written.{begin_of, led_to, accepted, Writable, TableWritten};

use running::HEADING;
use running::run::ACCEPTING_COLUMN;

// How many bytes there are.
pub const BYTE_COUNT: usize = 256;

// Where in the room a table's values are: the words of the first piece of each text's marks, and the entries; which bit
// of these words says whether a text is accepted; how many columns there are, and how many texts.
#[derive(Clone, Copy)]
pub struct Places {
    pub marks: usize,
    pub pieces: usize,
    pub top: usize,
    pub entries: usize,
    pub columns: usize,
    pub texts: usize,
}

impl Places {
    // Where the column leads from the state of the text.
    fn led_to(&self, room: &[u64], column: usize, text: usize) -> u16
        requires inside { self.now.entries + column + self.now.columns * text < length room.now }
        requires fits { led_to self.now room.now column text < most_entries }
        ensures { result ≡ led_to self.now room.now column text }
    {
        room[self.entries + column + self.columns * text] as u16
    }

    // Whether the state of the text accepts, 1 or 0: the bit of its first word that says so.
    fn accepted(&self, room: &[u64], text: usize) -> u16
        requires inside { self.now.marks + self.now.pieces * text < length room.now }
        requires top_low { self.now.top < word_bits }
        ensures { result ≡ accepted self.now room.now text }
    {
        ((room[self.marks + self.pieces * text] >> self.top) % 2) as u16
    }
}

// Where column c begins.
fn begin_of(column: usize, states: usize) -> u16
    requires { begin_of column states < most_entries }
    ensures { result ≡ begin_of column states }
{
    (HEADING + column * states) as u16
}

// Writes for each byte where its column begins.
fn write_begins(columns: &[u8; BYTE_COUNT], states: usize, table: &mut [u16])
    requires byte_count_in_bounds { byte_count ≤ length table.old }
    requires by_index { (b : ℕ) → b < byte_count
        → (get_or columns.now b 0 < most_entries) × (begin_of (get_or columns.now b 0) states < most_entries) }
    ensures { Filled 0 byte_count (λ b. begin_of (get_or columns.now b 0) states) table.old
        table.new }
{
    for (byte, &column) in columns.iter().enumerate() {
        table[byte] = begin_of(usize::from(column), states);
    }
}

// Writes a column from `at` on: 0 for state 0, then for the state of each text its value.
fn write_column<F: Fn(usize) -> u16>(table: &mut [u16], at: usize, texts: usize, value: F)
    requires texts_in_bounds { at + (1 + texts) ≤ length table.old }
    requires by_index { (i : ℕ) → i < texts → F.pre value i }
    ensures { (v : ℕ → ℕ) → ((i r : ℕ) → i < texts → F.post value i r → r ≡ v i)
        → Filled at (1 + texts) (after_zero v) table.old table.new }
{
    for text in 0..texts {
        table[at + 1 + text] = value(text);
    }
    table[at] = 0;
}

// Writes the columns, one after the other.
fn write_columns(room: &[u64], places: &Places, table: &mut [u16])
    requires texts_in_bounds { begin_of places.now.columns (1 + places.now.texts) ≤ length table.old }
    requires values_there { (c i : ℕ) → c < places.now.columns → i < places.now.texts
        → (places.now.entries + c + places.now.columns * i < length room.now)
        × (led_to places.now room.now c i < most_entries) }
    ensures { RowsFilled heading (1 + places.now.texts) places.now.columns
        (λ c. after_zero (led_to places.now room.now c)) table.old
        table.new }
{
    for column in 0..places.columns {
        let at = HEADING + column * (1 + places.texts);
        write_column(
            table,
            at,
            places.texts,
            |text| places.led_to(room, column, text),
        );
    }
}

// Writes the table of the states that were found.
pub fn write_table(columns: &[u8; BYTE_COUNT], room: &[u64], places: Places, table: &mut [u16])
    requires { Writable places columns.now room.now table.old }
    ensures { TableWritten places columns.now room.now table.old
        table.new }
{
    let states = 1 + places.texts;
    write_begins(columns, states, table);
    table[ACCEPTING_COLUMN] = begin_of(places.columns, states);
    write_columns(room, &places, table);
    let at = HEADING + places.columns * states;
    write_column(table, at, places.texts, |text| places.accepted(room, text));
}
