//! Where lines and words begin and end, and which lines are skipped.

ghost use Rattle.std.specs.Prelude.{◌≡◌, ◌==◌, ◌<◌, ◌≤◌, ◌∷◌, length, not};
ghost use Rattle.std.specs.List.{position_or_len};
ghost use Rattle.std.specs.Str.Lines.{strip_carriage_return};
ghost use Rattle.rex_text.specs.Text.{is_blank, is_skipped, lines_of, words_of};

use memchr::memchr;

// The first line, and what follows the LF that ends it.
pub(crate) fn first_line(bytes: &[u8]) -> (&[u8], &[u8])
    requires { 0 < length bytes.now }
    ensures first { lines_of bytes.now ≡ result.0.now ∷ lines_of result.1.now }
    ensures shorter { length result.1.now < length bytes.now }
{
    let end = line_end(bytes);
    if end == bytes.len() {
        return (bytes, &[]);
    }
    let line = &bytes[..end];
    let rest = &bytes[end + 1..];
    (without_return(line), rest)
}

// The line without a CR at its end.
fn without_return(line: &[u8]) -> &[u8]
    ensures { result.now ≡ strip_carriage_return line.now }
{
    match line {
        [front @ .., b'\r'] => front,
        _ => line,
    }
}

// Whether a line has no words, or a first word that begins with `#`.
pub(crate) fn is_skipped_line(line: &[u8]) -> bool
    ensures { result ≡ is_skipped (words_of line.now) }
{
    let start = word_start(line);
    start == line.len() || line[start] == b'#'
}

// Where the first LF stands, or the length.
fn line_end(bytes: &[u8]) -> usize
    ensures place { result ≡ position_or_len (λ byte. byte == 10) bytes.now }
    ensures within { result ≤ length bytes.now }
{
    memchr(b'\n', bytes).unwrap_or(bytes.len())
}

// Where the first blank stands, or the length.
pub(crate) fn word_end(bytes: &[u8]) -> usize
    ensures place { result ≡ position_or_len is_blank bytes.now }
    ensures within { result ≤ length bytes.now }
{
    bytes
        .iter()
        .position(|byte| is_blank(*byte))
        .unwrap_or(bytes.len())
}

// Where the first byte that is no blank stands, or the length.
pub(crate) fn word_start(bytes: &[u8]) -> usize
    ensures place { result ≡ position_or_len (λ byte. not (is_blank byte)) bytes.now }
    ensures within { result ≤ length bytes.now }
{
    bytes
        .iter()
        .position(|byte| !is_blank(*byte))
        .unwrap_or(bytes.len())
}

// Whether a byte separates words.
pub(crate) fn is_blank(byte: u8) -> bool
    ensures { result ≡ is_blank byte }
{
    byte == b' ' || byte == b'\t'
}
