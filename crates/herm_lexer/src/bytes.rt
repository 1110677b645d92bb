//! Classes of the bytes of a source file.
ghost use Rattle.std.specs.Prelude.{◌≡◌, ◌≤◌, drop, length, slice_index};
ghost use Rattle.herm_lexer.specs.Bytes.{is_blank, is_allowed, is_line_byte, is_name_byte};

/// White space: a blank, a tab, a newline or a carriage return.
pub fn is_blank(b: u8) -> bool
    ensures { result ≡ is_blank b }
{
    b == b' ' || b == b'\t' || b == b'\n' || b == b'\r'
}

/// The bytes that a source file may have: white space, and the printable ones.
pub fn is_allowed(b: u8) -> bool
    ensures { result ≡ is_allowed b }
{
    is_blank(b) || b.is_ascii_graphic()
}

/// An allowed byte that doesn't end a line.
pub fn is_line_byte(b: u8) -> bool
    ensures { result ≡ is_line_byte b }
{
    is_allowed(b) && b != b'\n'
}

/// A letter, a digit or `_`.
pub fn is_name_byte(b: u8) -> bool
    ensures { result ≡ is_name_byte b }
{
    b.is_ascii_alphanumeric() || b == b'_'
}

/// The byte at an index, or 0 past the end.
pub fn byte_at(bytes: &[u8], index: usize) -> u8
    ensures { result ≡ slice_index bytes.now index }
{
    bytes.get(index).copied().unwrap_or(0)
}

/// The bytes from an index on, or none past the end.
pub fn bytes_from(bytes: &[u8], index: usize) -> &[u8]
    ensures from { result.now ≡ drop index bytes.now }
    ensures within { length result.now ≤ length bytes.now }
{
    bytes.get(index..).unwrap_or(&[])
}
