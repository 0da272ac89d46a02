//! Text as bytes: its lines, its words and its numbers.
#![tactic(auto)]

ghost use Rattle.std.specs.Prelude.{◌≡◌, ◌+◌, length, take, drop, position, ◌==◌};
ghost use Rattle.std.specs.Iterator.{at_most};
ghost use Rattle.std.specs.Str.{bytes_eq};
ghost use Rattle.text.specs.Lines.{end_at, first_line, after_line, TakesLine};
ghost use Rattle.text.specs.Words.{first_word, after_word, numeral};

// The place of the first `stop`.
fn place_of(bytes: &[u8], stop: u8) -> Option<usize>
    ensures { result ≡ position (λ b. b == stop) bytes.now }
{
    bytes.iter().position(|b| *b == stop)
}

// The bytes before the first `stop`, and the bytes after it.
fn parted(bytes: &[u8], stop: u8) -> (&[u8], &[u8])
    ensures first { result.0.now ≡ take (end_at stop bytes.now) bytes.now }
    ensures rest { result.1.now ≡ drop (end_at stop bytes.now + 1) bytes.now }
{
    match place_of(bytes, stop) {
        Some(end) => (&bytes[..end], &bytes[end + 1..]),
        None => (bytes, &[]),
    }
}

/// The first line without its end, and the bytes that follow its end.
///
/// A line ends at byte 0A; a 0D directly before belongs to its end. The last line may lack its end.
pub fn first_line(bytes: &[u8]) -> (&[u8], &[u8])
    ensures line { result.0.now ≡ first_line bytes.now }
    ensures rest { result.1.now ≡ after_line bytes.now }
{
    let (line, rest) = parted(bytes, b'\n');
    if line.len() == bytes.len() {
        return (line, rest);
    }
    (line.strip_suffix(b"\r").unwrap_or(line), rest)
}

/// The lines of some bytes, each without its end.
#[derive(Clone, Debug, Drop)]
pub struct Lines<'a> {
    rest: &'a [u8],
}

impl<'a> Lines<'a> {
    /// The lines of these bytes.
    pub fn of(bytes: &'a [u8]) -> Lines<'a>
        ensures { result.rest.now ≡ bytes.now }
    {
        Lines { rest: bytes }
    }

    /// The bytes after the lines that were taken.
    pub fn rest(&self) -> &'a [u8]
        ensures { result.now ≡ self.now.rest.now }
    {
        self.rest
    }
}

impl<'a> Iterator for Lines<'a> {
    type Item = &'a [u8];

    ghost next_gives = { TakesLine };

    ghost remaining = { λ s. at_most (length s.rest.now) };

    fn next(&mut self) -> Option<&'a [u8]> {
        let Lines { rest: left } = *self;
        if left.is_empty() {
            return None;
        }
        let (line, rest) = first_line(left);
        *self = Lines { rest };
        Some(line)
    }
}

/// The first word of a line, up to its first space, and what follows that space.
pub fn first_word(line: &[u8]) -> (&[u8], &[u8])
    ensures word { result.0.now ≡ first_word line.now }
    ensures rest { result.1.now ≡ after_word line.now }
{
    parted(line, b' ')
}

/// Whether a word is this text.
pub fn is(word: &[u8], text: &str) -> bool
    ensures { result ≡ bytes_eq word.now text.now }
{
    word == text.as_bytes()
}

/// The number that a word writes in one to nine decimal digits.
pub fn number(word: &[u8]) -> Option<u32>
    ensures { result ≡ numeral word.now }
{
    if word.is_empty() || word.len() > 9 {
        return None;
    }
    let mut n = 0;
    for b in word {
        if !b.is_ascii_digit() {
            return None;
        }
        n = n * 10 + u32::from(*b - b'0');
    }
    Some(n)
}
