// Rows of a table: fields with a tab between them. In a field `%` and two hex digits are a byte, and `~`, a number and
// `;` are as many more of the byte before them.
#![tactic(auto)]

ghost use Rattle.std.specs.Prelude.{ℕ, ◌≡◌, ◌<◌, ◌≤◌, length, get_or, None};
ghost use Rattle.std.specs.Option.{ForSome};
ghost use Rattle.fields.specs.Number.{digit_value, spelled};

// How many bytes the fields of a row have at most, and how many fields: what is past them is left out.
pub const MOST_BYTES: usize = 66000;

pub const MOST_FIELDS: usize = 6;

// A number as large takes no more digits.
const LARGE: u64 = 1000000000000;

// The value of a hex digit, 0 of any other byte.
fn digit(byte: u8) -> u8
    ensures { result ≡ digit_value byte }
{
    match byte {
        b'0'..=b'9' => byte - b'0',
        b'a'..=b'f' => byte - b'a' + 10,
        _ => 0,
    }
}

// The number that these digits spell.
pub fn number(digits: &[u8]) -> u64
    ensures { result ≡ spelled digits.now }
{
    digits.iter().fold(0, |value: u64, byte| {
        if value < LARGE {
            10 * value + u64::from(digit(*byte))
        } else {
            value
        }
    })
}

// How many bytes the first part of a line has, which stands for one byte, for more of the byte before, or for the end of
// a field.
fn part_size(line: &[u8]) -> Option<usize>
    ensures some { ForSome result (λ size. 0 < size) }
    ensures none { result ≡ None → length line.now ≡ 0 }
    ensures within { ForSome result (λ size. size ≤ length line.now) }
{
    let size = match line.first()? {
        b'%' => 3,
        b'~' => line
            .iter()
            .position(|byte| *byte == b';')
            .map_or(line.len(), |i| i + 1),
        _ => 1,
    };
    Some(size.min(line.len()))
}

// A row: the bytes of its fields, one behind the other, and where each field ends. They stand in lent buffers, so that no
// row can fail for want of memory; what has no room there is left out.
#[derive(Drop)]
pub struct Row<'a> {
    bytes: &'a mut [u8],
    // How many bytes there are.
    size: usize,
    ends: &'a mut [usize],
    // How many fields there are.
    count: usize,
    // Each of them ends within the bytes.
    ghost within: { (field : ℕ) → field < count → get_or ends.now field 0 ≤ size },
}

impl<'a> Row<'a> {
    // The row of a line: each part says how long it is, so this goes from part to part.
    pub fn parse(line: &[u8], bytes: &'a mut [u8], ends: &'a mut [usize]) -> Row<'a>
        ensures size { result.size ≤ length result.bytes.now }
        ensures same_length { length result.bytes.now ≡ length bytes.old }
    {
        let mut row = Row {
            bytes,
            size: 0,
            ends,
            count: 0,
        };
        let mut rest = line;
        while let Some(size) = part_size(rest) {
            let (part, after) = rest.split_at(size);
            row.put(part);
            rest = after;
        }
        row.end_field();
        row
    }

    // Puts what a part stands for.
    fn put(&mut self, part: &[u8])
        requires { self.old.size ≤ length self.old.bytes.now }
        ensures size { self.new.size ≤ length self.new.bytes.now }
        ensures same_length { length self.new.bytes.now ≡ length self.old.bytes.now }
    {
        match part {
            [b'\t'] => self.end_field(),
            [byte] => self.put_bytes(*byte, 1),
            [b'%', high, low] => self.put_bytes(digit(*high) << 4 | digit(*low), 1),
            [_, digits @ .., _] => {
                let last = self.last();
                self.put_bytes(last, number(digits) as usize);
            }
            [] => (),
        }
    }

    // The last byte, 0 where there is none.
    fn last(&self) -> u8 {
        match self.size.checked_sub(1) {
            Some(place) => self.bytes.get(place).copied().unwrap_or(0),
            None => 0,
        }
    }

    // Puts so many of a byte, as far as there is room.
    fn put_bytes(&mut self, byte: u8, count: usize)
        requires { self.old.size ≤ length self.old.bytes.now }
        ensures size { self.new.size ≤ length self.new.bytes.now }
        ensures same_length { length self.new.bytes.now ≡ length self.old.bytes.now }
    {
        let size = self.size.saturating_add(count).min(self.bytes.len());
        self.bytes[self.size..size].fill(byte);
        self.size = size;
    }

    // Ends a field, where there is room for one more.
    fn end_field(&mut self)
        requires { self.old.size ≤ length self.old.bytes.now }
        ensures size { self.new.size ≤ length self.new.bytes.now }
        ensures same_length { length self.new.bytes.now ≡ length self.old.bytes.now }
    {
        // By its place: that the row keeps its fact while one of the ends is lent, as by `get_mut`, is not proved.
        if self.count < self.ends.len() {
            self.ends[self.count] = self.size;
            self.count += 1;
        }
    }

    // Where a field ends, 0 where there is none.
    fn end_of(&self, number: usize) -> usize
        ensures { result ≤ self.now.size }
    {
        if number < self.count {
            self.ends.get(number).copied().unwrap_or(0)
        } else {
            0
        }
    }

    // A field by its number, from 0: it is empty where there is none.
    pub fn field(&self, number: usize) -> &[u8]
        ensures in_buffer { length result.now ≤ length self.now.bytes.now }
        ensures in_row { length result.now ≤ self.now.size }
    {
        let start = match number.checked_sub(1) {
            Some(before) => self.end_of(before),
            None => 0,
        };
        let end = self.end_of(number);
        self.bytes.get(start..end).unwrap_or(b"")
    }
}

#[cfg(test)]
mod tests {
    use super::*;
    use std::test::Fail;

    #[test]
    fn fields_of_a_row(rt: HostRuntime) -> Result<(), Fail> {
        let mut bytes = [0u8; MOST_BYTES];
        let mut ends = [0usize; MOST_FIELDS];
        let row = Row::parse(b"1r\ta%2ab\t(~3;~;x", &mut bytes, &mut ends);
        assert_eq!(rt; row.field(0), b"1r".as_slice());
        assert_eq!(rt; row.field(1), b"a*b".as_slice());
        assert_eq!(rt; row.field(2), b"((((x".as_slice());
        assert_eq!(rt; row.field(3), b"".as_slice());
        Ok(())
    }
}
