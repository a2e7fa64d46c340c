// The lines of a text, and where one ends and the next begins.
ghost use Rattle.std.specs.Prelude.{◌≤◌, ◌≡◌, length};
ghost use Rattle.std.specs.Iterator.{YieldsFirstRef, item_count};
ghost use Rattle.input.specs.Lines.{lines};
ghost use Rattle.input.specs.Ends.{end_size, Ends, after_end};
ghost use Rattle.input.specs.Left.{lines_left};

// The lines of a text that are left.
#[derive(Drop)]
pub struct Lines<'a> {
    rest: &'a [u8],
}

impl<'a> Lines<'a> {
    // All lines of a text.
    pub fn of(text: &'a [u8]) -> Lines<'a>
        ensures { lines_left result ≡ lines text.now }
    {
        Lines { rest: text }
    }
}

impl<'a> Iterator for Lines<'a> {
    type Item = &'a [u8];

    ghost next_gives = { YieldsFirstRef lines_left };

    ghost remaining = { item_count lines_left };

    fn next(&mut self) -> Option<&'a [u8]> {
        if self.rest.is_empty() {
            return None;
        }
        let (line, rest) = self.rest.split_at(first_end(self.rest));
        self.rest = &rest[end_size(rest)..];
        Some(line)
    }
}

// How many bytes the end at the front has: 10 alone, or 13 and 10; none where no end stands there.
fn end_size(bytes: &[u8]) -> usize
    ensures size { result ≡ end_size bytes.now }
    ensures within { result ≤ length bytes.now }
{
    match bytes {
        [b'\n', ..] => 1,
        [b'\r', b'\n', ..] => 2,
        _ => 0,
    }
}

// The larger of the two bytes that an end can begin with: nearly every byte of a text is above it.
const LAST_OF_ENDS: u8 = b'\r';

// Where the first end stands, or the text's length where there is none.
fn first_end(text: &[u8]) -> usize
    ensures { Ends text.now 0 result }
{
    for (end, byte) in text.iter().enumerate() {
        if *byte <= LAST_OF_ENDS && end_size(&text[end..]) > 0 {
            return end;
        }
    }
    text.len()
}

// The place of the next end from a place on, or the input's length where none stands there.
pub fn line_end(input: &[u8], start: usize) -> usize
    requires { start ≤ length input.now }
    ensures { Ends input.now start result }
{
    start + first_end(&input[start..])
}

// The place where the line after an end begins.
pub fn next_line(input: &[u8], end: usize) -> usize
    requires { end ≤ length input.now }
    ensures { result ≡ after_end input.now end }
{
    end + end_size(&input[end..])
}
