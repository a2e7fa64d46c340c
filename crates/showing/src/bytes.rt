// Bytes as they are shown: those from 32 to 126 as they are, each other one as `\x` and two hexadecimal digits.
ghost use Rattle.std.specs.Prelude.{◌≤◌, ◌<◌, ◌≡◌, length};
ghost use Rattle.printing.specs.Printer.{HasRoom, Puts};
ghost use Rattle.showing.specs.Shown.{hex_digit, printable, shown_byte, shown_width, shown, spaces};

use printing::print::Printer;

// A digit below 16.
fn hex_digit(d: u8) -> u8
    requires { d < 16 }
    ensures { result ≡ hex_digit d }
{
    if d < 10 { b'0' + d } else { b'a' - 10 + d }
}

// Whether a byte is shown as it is.
fn printable(byte: u8) -> bool
    ensures { result ≡ printable byte }
{
    matches!(byte, b' '..=b'~')
}

// How many columns a byte takes.
#[tactic(auto, unfolding(crate::specs::Shown::shown_byte))]
pub fn shown_width(byte: u8) -> usize
    ensures { result ≡ shown_width byte }
{
    if printable(byte) { 1 } else { 4 }
}

// Prints a byte as it is shown.
#[tactic(auto, unfolding(crate::specs::Shown::shown_byte))]
pub fn put_byte(printer: &mut Printer, byte: u8)
    requires { HasRoom printer.old (length (shown_byte byte)) }
    ensures { Puts printer.old (shown_byte byte) printer.new }
{
    if printable(byte) {
        printer.put_byte(byte);
    } else {
        printer.put(&[b'\\', b'x', hex_digit(byte / 16), hex_digit(byte % 16)]);
    }
}

// Prints bytes as they are shown.
pub fn put_shown(printer: &mut Printer, bytes: &[u8])
    requires { HasRoom printer.old (length (shown bytes.now)) }
    ensures { Puts printer.old (shown bytes.now) printer.new }
{
    for byte in bytes {
        put_byte(printer, *byte);
    }
}

// Prints so many spaces.
pub fn put_spaces(printer: &mut Printer, count: usize)
    requires { HasRoom printer.old (length (spaces count)) }
    ensures { Puts printer.old (spaces count) printer.new }
{
    for _ in 0..count {
        printer.put_byte(b' ');
    }
}
