//! UTF-8 taken apart: the first code point of some bytes, and the bytes that follow it.
ghost use Rattle.std.specs.Prelude.{◌≡◌, ◌-◌, ◌||◌, cond, Some, None, MatchOption};
ghost use Rattle.names.specs.Utf8.{first, continues, fits3, fits4};

// The first code point of some bytes and the bytes that follow it, none where they are ill-formed at their start.
//
// Not by std's `from_utf8` or `utf8_chunks`, which tell of a whole text: here the first faulty code point decides, ill-formed or not
// listed, so the rules and the theorem speak of one code point at a time.
pub(crate) fn first(bytes: &[u8]) -> Option<(u32, &[u8])>
    ensures { MatchOption result (first bytes.now ≡ None) (λ p. first bytes.now ≡ Some (p.0, p.1.now)) }
{
    let (b0, rest) = bytes.split_first()?;
    match (*b0, rest) {
        (0..=0x7f, _) => Some((u32::from(*b0), rest)),
        (0xc2..=0xdf, [b1, rest @ ..]) => Some((u32::from(*b0 - 0xc0) * 64 + low(*b1)?, rest)),
        (0xe0..=0xef, [b1, b2, rest @ ..]) if fits(*b0, *b1) => {
            let high = u32::from(*b0 - 0xe0) * 64 + low(*b1)?;
            Some((high * 64 + low(*b2)?, rest))
        }
        (0xf0..=0xf4, [b1, b2, b3, rest @ ..]) if fits(*b0, *b1) => {
            let high = u32::from(*b0 - 0xf0) * 64 + low(*b1)?;
            Some(((high * 64 + low(*b2)?) * 64 + low(*b3)?, rest))
        }
        _ => None,
    }
}

// The low six bits of a byte 10xxxxxx, none of any other byte.
fn low(b: u8) -> Option<u32>
    ensures { result ≡ cond (continues b) (Some (b - 128)) None }
{
    match b {
        0x80..=0xbf => Some(u32::from(b - 0x80)),
        _ => None,
    }
}

// Whether the first two bytes of three or four fit each other: no overlong form, no surrogate, nothing above 10FFFF.
fn fits(b0: u8, b1: u8) -> bool
    ensures { result ≡ (fits3 b0 b1 || fits4 b0 b1) }
{
    matches!(
        (b0, b1),
        (0xe0, 0xa0..=0xbf)
            | (0xed, 0x80..=0x9f)
            | (0xe1..=0xec | 0xee..=0xef, 0x80..=0xbf)
            | (0xf0, 0x90..=0xbf)
            | (0xf4, 0x80..=0x8f)
            | (0xf1..=0xf3, 0x80..=0xbf)
    )
}
