//! Bytes of any kind as text on one line.
ghost use Rattle.std.specs.Prelude.{◌≡◌, ◌++◌, OnOk, string_bytes};
ghost use Rattle.std.specs.List.{flat_map};
ghost use Rattle.lw_log.specs.Lines.{LosesNothing, TellsPrintably, escaped, is_plain};

use lw_words::NoMemory;
use std::alloc::Global;

/// A byte that stands for itself.
fn is_plain(byte: u8) -> bool
    ensures { result ≡ is_plain byte }
{
    (32..=126).contains(&byte) && byte != b'\\'
}

fn put_byte(alloc: Global, text: &mut String, byte: u8) -> Result<(), NoMemory>
    ensures { OnOk result (string_bytes text.new ≡ string_bytes text.old ++ escaped byte) }
{
    if is_plain(byte) {
        text.push(char::from(byte))?;
    } else if byte == b'\\' {
        text.push_str("\\\\")?;
    } else {
        text.push_str("\\x")?;
        text.push_str(hex::encode(alloc, &[byte])?.as_str())?;
    }
    Ok(())
}

/// Appends the bytes: printable ones as they are, a backslash twice, and all others by their number.
pub fn put_escaped(alloc: Global, text: &mut String, bytes: &[u8]) -> Result<(), NoMemory>
    ensures { OnOk result (string_bytes text.new ≡ string_bytes text.old ++
        flat_map escaped bytes.now) }
{
    for byte in bytes {
        put_byte(alloc, text, *byte)?;
    }
    Ok(())
}

/// A law, with no code: bytes are written as printable text, so none breaks a line, and no two texts of bytes are
/// written alike.
pub fn bytes_are_told_readably()
    ensures printable { TellsPrintably }
    ensures once { LosesNothing }
{}
