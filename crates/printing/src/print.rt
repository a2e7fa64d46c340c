// Bytes and numbers printed into a buffer, one after the other.
ghost use Rattle.std.specs.Prelude.{[], ◌∷◌, ◌≡◌, ◌+◌, ◌≤◌, length};
ghost use Rattle.printing.specs.Digits.{digits};
ghost use Rattle.printing.specs.Printing.{Prints};
ghost use Rattle.printing.specs.Printer.{HasRoom, Puts};

// A buffer, and the place in it up to which it is printed.
#[derive(Drop)]
pub struct Printer<'a> {
    pub out: &'a mut [u8],
    pub at: usize,
}

impl<'a> Printer<'a> {
    // A printer that has printed nothing yet.
    pub fn new(out: &'a mut [u8]) -> Printer<'a>
        ensures same_buffer { result.out.ghost_name ≡ out.entry.ghost_name }
        ensures front { (result.out.now ≡ out.old) × (result.at ≡ 0) }
    {
        Printer { out, at: 0 }
    }

    // Prints bytes.
    pub fn put(&mut self, bytes: &[u8])
        requires { HasRoom self.old (length bytes.now) }
        ensures { Puts self.old bytes.now self.new }
    {
        let end = self.at + bytes.len();
        self.out[self.at..end].copy_from_slice(bytes);
        self.at = end;
    }

    // Prints one byte: it is stored, where `put` would call for a copy.
    pub fn put_byte(&mut self, byte: u8)
        requires { HasRoom self.old 1 }
        ensures { Puts self.old (byte ∷ []) self.new }
    {
        self.out[self.at] = byte;
        self.at += 1;
    }

    // Prints a number in decimal digits.
    pub fn put_number(&mut self, n: usize)
        requires { HasRoom self.old (length (digits n)) }
        ensures { Puts self.old (digits n) self.new }
    {
        self.at = put_digits(self.out, self.at, n);
    }
}

// Prints a number in decimal digits at a place, those of its tenth before its last, and answers the place after them. The
// place is handed on alone: in a printer it would go through memory for each digit.
fn put_digits(out: &mut [u8], at: usize, n: usize) -> usize
    requires { at + length (digits n) ≤ length out.old }
    ensures { Prints out.old at (digits n) out.new result }
{
    if n < 10 {
        out[at] = b'0' + n as u8;
        return at + 1;
    }
    let last = put_digits(out, at, n / 10);
    out[last] = b'0' + (n % 10) as u8;
    last + 1
}
