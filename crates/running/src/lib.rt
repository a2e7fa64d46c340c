// Running a table of steps: whether a table accepts a text. Any slice of 257 or more entries is a table.
#![tactic(auto)]

pub mod numbers;
pub mod run;

ghost use Rattle.std.specs.Prelude.{◌≡◌};
ghost use Rattle.running.specs.Answer.{table_numbers, table_answered};

use run::runs;
use tree::refusal::Refusal;

// The entries that say where columns begin: one for each byte, and one for the column of accepting.
pub const HEADING: usize = 257;

// Whether the table accepts the whole text. A table with fewer entries than those that say where columns begin is
// refused.
pub fn match_table(table: &[u16], text: &[u8]) -> Result<bool, Refusal>
    ensures { table_numbers result ≡ table_answered table.now text.now }
{
    if table.len() < HEADING {
        return Err(Refusal::TableTooShort);
    }
    Ok(runs(table, text))
}
