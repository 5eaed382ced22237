//! The lines of a text.
ghost use Rattle.std.specs.Prelude.{◌≡◌, ◌<◌, ◌∷◌, length};
ghost use Rattle.pim_fact_lines.specs.Texts.{lines_of, is_header};

use crate::word::is;
use memchr::memchr;

/// Returns the first line, and the bytes after it.
pub fn next_line(bytes: &[u8]) -> (&[u8], &[u8])
    requires { 0 < length bytes.now }
    ensures lines { lines_of bytes.now ≡ result.0.now ∷ lines_of result.1.now }
    ensures shorter { length result.1.now < length bytes.now }
{
    match memchr(b'\n', bytes) {
        Some(place) => (&bytes[..place], &bytes[place + 1..]),
        None => (bytes, &[]),
    }
}

/// Returns whether the bytes are the first line of a text: its version.
pub fn is_header(bytes: &[u8]) -> bool
    ensures { result ≡ is_header bytes.now }
{
    is(bytes, "facts 1")
}
