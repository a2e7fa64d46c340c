// Words, numbers and bytes on standard output.
#![tactic(auto)]

use std::io;

// Whether it is so, in a word.
pub fn say_yes(rt: &impl Print, yes: bool) -> io::Result<()> {
    rt.print(if yes { "yes" } else { "no" })
}

// The first of the words, as many as are to be shown, each in decimal and in hex.
pub fn say_words(rt: &impl Print, words: &[u64], shown: usize) -> io::Result<()> {
    for word in words.iter().take(shown) {
        print!(rt; " {word} (0x{word:x})")?;
    }
    Ok(())
}

// Bytes in hex.
pub fn say_bytes(rt: &impl Print, bytes: &[u8]) -> io::Result<()> {
    for byte in bytes {
        print!(rt; " {byte:02x}")?;
    }
    Ok(())
}
