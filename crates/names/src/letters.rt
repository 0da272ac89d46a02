//! The letters of names and their digits: number times 14, plus mark.
ghost use Rattle.std.specs.Prelude.{◌≡◌, ◌<◌, None, slice_index};
ghost use Rattle.std.specs.Option.{option_map};
ghost use Rattle.names.specs.Letters.{digit, letter_of, letter_by, letter_number, mark_number, TableRule};
ghost use Rattle.names.specs.Progress.{bare_digit, unless_zero};

// The digits of the code points from 00C0 to 017F, 0 for one that is not listed. They are no options: `TableRule` is stated of a list of
// numbers.
const DIGITS: [u16; 192] = [
    71, 72, 73, 74, 78, 79, 798, 110, 127, 128, 129, 134, 183, 184, 185, 190, // 00C0
    812, 256, 267, 268, 269, 270, 274, 0, 826, 351, 352, 353, 358, 408, 840, 854, // 00D0
    435, 436, 437, 438, 442, 443, 868, 474, 491, 492, 493, 498, 547, 548, 549, 554, // 00E0
    882, 620, 631, 632, 633, 634, 638, 0, 896, 715, 716, 717, 722, 772, 910, 778, // 00F0
    75, 439, 76, 440, 83, 447, 100, 464, 101, 465, 105, 469, 109, 473, 123, 487, // 0100
    924, 938, 131, 495, 132, 496, 133, 497, 139, 503, 137, 501, 157, 521, 160, 524, // 0110
    161, 525, 166, 530, 171, 535, 0, 0, 186, 550, 187, 551, 188, 552, 195, 559, // 0120
    189, 952, 0, 0, 199, 563, 222, 586, 0, 226, 590, 236, 600, 235, 599, 0, // 0130
    0, 966, 980, 254, 618, 264, 628, 263, 627, 0, 0, 0, 271, 635, 272, 636, // 0140
    276, 640, 994, 1008, 310, 674, 320, 684, 319, 683, 324, 688, 325, 689, 334, 698, // 0150
    333, 697, 348, 712, 347, 711, 0, 0, 354, 718, 355, 719, 356, 720, 359, 723, // 0160
    360, 724, 363, 727, 381, 745, 409, 773, 414, 422, 786, 427, 791, 431, 795, 0, // 0170
];

// The digit of the i-th code point from 00C0 on, none for one that is not listed.
fn table_digit(i: usize) -> Option<u16>
    requires { i < 192 }
    ensures value { result ≡ unless_zero (slice_index DIGITS i) }
    ensures rule { TableRule DIGITS }
{
    match DIGITS[i] {
        0 => None,
        digit => Some(digit),
    }
}

// The digit of a letter of ASCII, none for a code point that is not listed.
fn ascii_digit(c: u32) -> Option<u16>
    requires { c < 128 }
    ensures { result ≡ option_map digit (letter_by None (letter_number c)) }
{
    match c {
        0x20 => Some(14),
        0x27 => Some(28),
        0x2d => Some(42),
        0x2e => Some(56),
        0x41..=0x5a => Some((c - 0x41 + 5) as u16 * 14),
        0x61..=0x7a => Some((c - 0x61 + 31) as u16 * 14),
        _ => None,
    }
}

// The digit of the letter that a code point is by itself, none for one that is not listed.
pub(crate) fn digit_of(c: u32) -> Option<u16>
    ensures { result ≡ option_map digit (letter_of c) }
{
    match c {
        0..=0x7f => ascii_digit(c),
        0xc0..=0x17f => table_digit((c - 0xc0) as usize),
        _ => None,
    }
}

// Whether a digit is that of a plain letter without a mark.
pub(crate) fn takes_mark(digit: u16) -> bool
    ensures { result ≡ bare_digit digit }
{
    digit % 14 == 0 && (70..=784).contains(&digit)
}

// The number of a combining mark, none for any other code point.
#[tactic(auto, unfolding(crate::specs::Letters::mark_number))]
pub(crate) fn mark_of(c: u32) -> Option<u16>
    ensures { result ≡ unless_zero (mark_number c) }
{
    match c {
        0x300..=0x304 => Some((c - 0x300 + 1) as u16),
        0x306..=0x308 => Some((c - 0x306 + 6) as u16),
        0x30a..=0x30c => Some((c - 0x30a + 9) as u16),
        0x327 => Some(12),
        0x328 => Some(13),
        _ => None,
    }
}
