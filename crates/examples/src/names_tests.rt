//! Names: what is read, what is refused and where, and which spellings are one name.
use names::{Fault, Name, read};
use std::process::Abort;
use std::test::Fail;

// The number and the place of a refusal, none where a name is read.
fn refusal(r: Result<Name, Fault>) -> Option<(u8, usize)> {
    r.err().map(|fault| (fault.number(), fault.place))
}

// The number and the place of the refusal, none where a name is read, and the bytes.
type Case = (Option<(u8, usize)>, &'static [u8]);

fn check(rt: &impl Abort, cases: &[Case]) {
    for (expected, bytes) in cases {
        assert_eq!(rt; refusal(read(bytes)), *expected);
    }
}

// Nothing, one letter, 24 letters, 25 letters.
const LENGTHS: [Case; 8] = [
    (Some((12, 0)), b""),
    (None, b"A"),
    (None, b"AAAAAAAAAAAAAAAAAAAAAAAA"),
    (Some((12, 24)), b"AAAAAAAAAAAAAAAAAAAAAAAAA"),
    (
        None,
        b"\xc3\xa9\xc3\xa9\xc3\xa9\xc3\xa9\xc3\xa9\xc3\xa9\xc3\xa9\xc3\xa9\xc3\xa9\xc3\xa9\xc3\xa9\xc3\xa9\xc3\xa9\xc3\xa9\xc3\xa9\xc3\xa9\xc3\xa9\xc3\xa9\xc3\xa9\xc3\xa9\xc3\xa9\xc3\xa9\xc3\xa9\xc3\xa9",
    ),
    (
        Some((12, 48)),
        b"\xc3\xa9\xc3\xa9\xc3\xa9\xc3\xa9\xc3\xa9\xc3\xa9\xc3\xa9\xc3\xa9\xc3\xa9\xc3\xa9\xc3\xa9\xc3\xa9\xc3\xa9\xc3\xa9\xc3\xa9\xc3\xa9\xc3\xa9\xc3\xa9\xc3\xa9\xc3\xa9\xc3\xa9\xc3\xa9\xc3\xa9\xc3\xa9\xc3\xa9",
    ),
    (
        None,
        b"e\xcc\x81e\xcc\x81e\xcc\x81e\xcc\x81e\xcc\x81e\xcc\x81e\xcc\x81e\xcc\x81e\xcc\x81e\xcc\x81e\xcc\x81e\xcc\x81e\xcc\x81e\xcc\x81e\xcc\x81e\xcc\x81e\xcc\x81e\xcc\x81e\xcc\x81e\xcc\x81e\xcc\x81e\xcc\x81e\xcc\x81e\xcc\x81",
    ),
    (
        Some((12, 72)),
        b"e\xcc\x81e\xcc\x81e\xcc\x81e\xcc\x81e\xcc\x81e\xcc\x81e\xcc\x81e\xcc\x81e\xcc\x81e\xcc\x81e\xcc\x81e\xcc\x81e\xcc\x81e\xcc\x81e\xcc\x81e\xcc\x81e\xcc\x81e\xcc\x81e\xcc\x81e\xcc\x81e\xcc\x81e\xcc\x81e\xcc\x81e\xcc\x81e\xcc\x81",
    ),
];

// The single letters of ASCII, and their neighbours.
const ASCII: [Case; 24] = [
    (None, b" "),
    (None, b"'"),
    (None, b"-"),
    (None, b"."),
    (None, b"A"),
    (None, b"Z"),
    (None, b"a"),
    (None, b"z"),
    (Some((10, 0)), b"\x00"),
    (Some((10, 0)), b"\x09"),
    (Some((10, 0)), b"\x1f"),
    (Some((10, 0)), b"!"),
    (Some((10, 0)), b"&"),
    (Some((10, 0)), b"("),
    (Some((10, 0)), b","),
    (Some((10, 0)), b"/"),
    (Some((10, 0)), b"0"),
    (Some((10, 0)), b"9"),
    (Some((10, 0)), b";"),
    (Some((10, 0)), b"@"),
    (Some((10, 0)), b"["),
    (Some((10, 0)), b"`"),
    (Some((10, 0)), b"{"),
    (Some((10, 0)), b"\x7f"),
];

// The letters that carry no mark.
const SINGLES: [Case; 16] = [
    (None, b"\xc3\x86"),
    (None, b"\xc3\x90"),
    (None, b"\xc3\x98"),
    (None, b"\xc3\x9e"),
    (None, b"\xc3\x9f"),
    (None, b"\xc3\xa6"),
    (None, b"\xc3\xb0"),
    (None, b"\xc3\xb8"),
    (None, b"\xc3\xbe"),
    (None, b"\xc4\x90"),
    (None, b"\xc4\x91"),
    (None, b"\xc4\xb1"),
    (None, b"\xc5\x81"),
    (None, b"\xc5\x82"),
    (None, b"\xc5\x92"),
    (None, b"\xc5\x93"),
];

// The code points from 00C0 to 017F that are not listed, and their neighbours outside.
const UNLISTED: [Case; 18] = [
    (Some((10, 0)), b"\xc3\x97"),
    (Some((10, 0)), b"\xc3\xb7"),
    (Some((10, 0)), b"\xc4\xa6"),
    (Some((10, 0)), b"\xc4\xa7"),
    (Some((10, 0)), b"\xc4\xb2"),
    (Some((10, 0)), b"\xc4\xb3"),
    (Some((10, 0)), b"\xc4\xb8"),
    (Some((10, 0)), b"\xc4\xbf"),
    (Some((10, 0)), b"\xc5\x80"),
    (Some((10, 0)), b"\xc5\x89"),
    (Some((10, 0)), b"\xc5\x8a"),
    (Some((10, 0)), b"\xc5\x8b"),
    (Some((10, 0)), b"\xc5\xa6"),
    (Some((10, 0)), b"\xc5\xa7"),
    (Some((10, 0)), b"\xc5\xbf"),
    (Some((10, 0)), b"\xc2\x80"),
    (Some((10, 0)), b"\xc2\xbf"),
    (Some((10, 0)), b"\xc6\x80"),
];

// Each mark on a plain letter, and its neighbours that are no marks of names.
const MARKED: [Case; 22] = [
    (None, b"q\xcc\x80"),
    (None, b"q\xcc\x81"),
    (None, b"q\xcc\x82"),
    (None, b"q\xcc\x83"),
    (None, b"q\xcc\x84"),
    (None, b"q\xcc\x86"),
    (None, b"q\xcc\x87"),
    (None, b"q\xcc\x88"),
    (None, b"q\xcc\x8a"),
    (None, b"q\xcc\x8b"),
    (None, b"q\xcc\x8c"),
    (None, b"q\xcc\xa7"),
    (None, b"q\xcc\xa8"),
    (Some((10, 1)), b"q\xcb\xbf"),
    (Some((10, 1)), b"q\xcc\x85"),
    (Some((10, 1)), b"q\xcc\x89"),
    (Some((10, 1)), b"q\xcc\x8d"),
    (Some((10, 1)), b"q\xcc\xa3"),
    (Some((10, 1)), b"q\xcc\xa6"),
    (Some((10, 1)), b"q\xcc\xa9"),
    (Some((10, 1)), b"q\xcd\x80"),
    (Some((10, 1)), b"q\xcd\x81"),
];

// Each mark alone.
const LOOSE: [Case; 13] = [
    (Some((11, 0)), b"\xcc\x80"),
    (Some((11, 0)), b"\xcc\x81"),
    (Some((11, 0)), b"\xcc\x82"),
    (Some((11, 0)), b"\xcc\x83"),
    (Some((11, 0)), b"\xcc\x84"),
    (Some((11, 0)), b"\xcc\x86"),
    (Some((11, 0)), b"\xcc\x87"),
    (Some((11, 0)), b"\xcc\x88"),
    (Some((11, 0)), b"\xcc\x8a"),
    (Some((11, 0)), b"\xcc\x8b"),
    (Some((11, 0)), b"\xcc\x8c"),
    (Some((11, 0)), b"\xcc\xa7"),
    (Some((11, 0)), b"\xcc\xa8"),
];

// A mark on a letter that may not carry one, and a second mark.
const BARRED: [Case; 26] = [
    (Some((11, 1)), b" \xcc\x81"),
    (Some((11, 1)), b"'\xcc\x81"),
    (Some((11, 1)), b"-\xcc\x81"),
    (Some((11, 1)), b".\xcc\x81"),
    (Some((11, 2)), b"\xc3\x86\xcc\x81"),
    (Some((11, 2)), b"\xc3\x90\xcc\x81"),
    (Some((11, 2)), b"\xc3\x98\xcc\x81"),
    (Some((11, 2)), b"\xc3\x9e\xcc\x81"),
    (Some((11, 2)), b"\xc3\x9f\xcc\x81"),
    (Some((11, 2)), b"\xc3\xa6\xcc\x81"),
    (Some((11, 2)), b"\xc3\xb0\xcc\x81"),
    (Some((11, 2)), b"\xc3\xb8\xcc\x81"),
    (Some((11, 2)), b"\xc3\xbe\xcc\x81"),
    (Some((11, 2)), b"\xc4\x90\xcc\x81"),
    (Some((11, 2)), b"\xc4\x91\xcc\x81"),
    (Some((11, 2)), b"\xc4\xb1\xcc\x81"),
    (Some((11, 2)), b"\xc5\x81\xcc\x81"),
    (Some((11, 2)), b"\xc5\x82\xcc\x81"),
    (Some((11, 2)), b"\xc5\x92\xcc\x81"),
    (Some((11, 2)), b"\xc5\x93\xcc\x81"),
    (Some((11, 2)), b"\xc3\xa9\xcc\x81"),
    (Some((11, 2)), b"\xc3\xa9\xcc\xa7"),
    (Some((11, 3)), b"e\xcc\x81\xcc\x81"),
    (Some((11, 3)), b"e\xcc\x81\xcc\xa7"),
    (Some((11, 3)), b"c\xcc\xa7\xcc\x81"),
    (None, b"e\xcc\x81f\xcc\x81"),
];

// A mark after the 24th letter is no 25th letter; for one code point 9 and 10 come before 12.
const FULL: [Case; 9] = [
    (None, b"AAAAAAAAAAAAAAAAAAAAAAAe\xcc\x81"),
    (None, b"AAAAAAAAAAAAAAAAAAAAAAAA\xcc\x81"),
    (Some((11, 26)), b"AAAAAAAAAAAAAAAAAAAAAAAA\xcc\x81\xcc\x81"),
    (Some((12, 26)), b"AAAAAAAAAAAAAAAAAAAAAAAA\xcc\x81B"),
    (Some((12, 25)), b"AAAAAAAAAAAAAAAAAAAAAAA\xc3\xa9B"),
    (Some((10, 24)), b"AAAAAAAAAAAAAAAAAAAAAAAA\xc3\x97"),
    (Some((9, 24)), b"AAAAAAAAAAAAAAAAAAAAAAAA\xff"),
    (Some((12, 24)), b"AAAAAAAAAAAAAAAAAAAAAAAA\xc3\xa9"),
    (Some((11, 24)), b"AAAAAAAAAAAAAAAAAAAAAAA \xcc\x81"),
];

// The edges of well-formed UTF-8: well-formed is 10, as no such code point is listed.
const WELL_FORMED: [Case; 16] = [
    (Some((10, 0)), b"\xc2\x80"),
    (Some((10, 0)), b"\xdf\xbf"),
    (Some((10, 0)), b"\xe0\xa0\x80"),
    (Some((10, 0)), b"\xe0\xbf\xbf"),
    (Some((10, 0)), b"\xe1\x80\x80"),
    (Some((10, 0)), b"\xec\xbf\xbf"),
    (Some((10, 0)), b"\xed\x80\x80"),
    (Some((10, 0)), b"\xed\x9f\xbf"),
    (Some((10, 0)), b"\xee\x80\x80"),
    (Some((10, 0)), b"\xef\xbf\xbf"),
    (Some((10, 0)), b"\xf0\x90\x80\x80"),
    (Some((10, 0)), b"\xf0\xbf\xbf\xbf"),
    (Some((10, 0)), b"\xf1\x80\x80\x80"),
    (Some((10, 0)), b"\xf3\xbf\xbf\xbf"),
    (Some((10, 0)), b"\xf4\x80\x80\x80"),
    (Some((10, 0)), b"\xf4\x8f\xbf\xbf"),
];

// Continuation bytes, overlong forms, surrogates, above 10FFFF, bytes that never occur.
const ILL_FORMED: [Case; 18] = [
    (Some((9, 0)), b"\x80"),
    (Some((9, 0)), b"\xbf"),
    (Some((9, 0)), b"\xc0\x80"),
    (Some((9, 0)), b"\xc1\xbf"),
    (Some((9, 0)), b"\xe0\x80\x80"),
    (Some((9, 0)), b"\xe0\x9f\xbf"),
    (Some((9, 0)), b"\xed\xa0\x80"),
    (Some((9, 0)), b"\xed\xbf\xbf"),
    (Some((9, 0)), b"\xf0\x80\x80\x80"),
    (Some((9, 0)), b"\xf0\x8f\xbf\xbf"),
    (Some((9, 0)), b"\xf4\x90\x80\x80"),
    (Some((9, 0)), b"\xf4\xbf\xbf\xbf"),
    (Some((9, 0)), b"\xf5\x80\x80\x80"),
    (Some((9, 0)), b"\xf7\xbf\xbf\xbf"),
    (Some((9, 0)), b"\xf8\x88\x80\x80\x80"),
    (Some((9, 0)), b"\xfc\x84\x80\x80\x80\x80"),
    (Some((9, 0)), b"\xfe"),
    (Some((9, 0)), b"\xff"),
];

// Truncated sequences, and a byte that does not continue one.
const TRUNCATED: [Case; 22] = [
    (Some((9, 0)), b"\xc2"),
    (Some((9, 0)), b"\xc2A"),
    (Some((9, 0)), b"\xc2\xc2"),
    (Some((9, 0)), b"\xe0"),
    (Some((9, 0)), b"\xe0\xa0"),
    (Some((9, 0)), b"\xe0\xa0A"),
    (Some((9, 0)), b"\xe1A\x80"),
    (Some((9, 0)), b"\xe1"),
    (Some((9, 0)), b"\xe1\x80"),
    (Some((9, 0)), b"\xe1\x80A"),
    (Some((9, 0)), b"\xed\x9f"),
    (Some((9, 0)), b"\xf0"),
    (Some((9, 0)), b"\xf0\x90"),
    (Some((9, 0)), b"\xf0\x90\x80"),
    (Some((9, 0)), b"\xf0\x90\x80A"),
    (Some((9, 0)), b"\xf0\x90A\x80"),
    (Some((9, 0)), b"\xf0A\x90\x80"),
    (Some((9, 0)), b"\xf4"),
    (Some((9, 0)), b"\xf4\x8f"),
    (Some((9, 0)), b"\xf4\x8f\xbf"),
    (Some((9, 0)), b"\xc3\x7f"),
    (Some((9, 0)), b"\xc3\xc0"),
];

// The place is that of the first byte of the faulty code point, and the first one decides.
const PLACES: [Case; 12] = [
    (Some((9, 1)), b"A\xff"),
    (Some((9, 1)), b"A\xe2\x82"),
    (Some((9, 3)), b"\xc3\xa9A\xc3"),
    (Some((10, 2)), b"AB\xe2\x82\xac\xff"),
    (Some((11, 3)), b"A\xcc\x81\xcc\x81\xff"),
    (Some((10, 0)), b"1\xff"),
    (Some((9, 0)), b"\xff1"),
    (Some((11, 0)), b"\xcc\x81\xff"),
    (Some((10, 0)), b"\xf0\x9f\x98\x80A"),
    (Some((12, 24)), b"AAAAAAAAAAAAAAAAAAAAAAAAA\xff"),
    (Some((10, 1)), b"A\xe2\x84\xab"),
    (Some((10, 0)), b"\xe1\xb8\x88"),
];

const CASES: [&[Case]; 12] = [
    &LENGTHS,
    &ASCII,
    &SINGLES,
    &UNLISTED,
    &MARKED,
    &LOOSE,
    &BARRED,
    &FULL,
    &WELL_FORMED,
    &ILL_FORMED,
    &TRUNCATED,
    &PLACES,
];

#[test]
fn reads_and_refuses(rt: HostRuntime) {
    let mut count: usize = 0;
    for cases in CASES {
        check(&rt, cases);
        count = count.saturating_add(cases.len());
    }
    assert_eq!(rt; count, 204);
}

// Each composed letter, with its base and its combining mark, from the Unicode data.
const MAPPINGS: [(u16, u8, u16); 161] = [
    (0x00c0, b'A', 0x300),
    (0x00c1, b'A', 0x301),
    (0x00c2, b'A', 0x302),
    (0x00c3, b'A', 0x303),
    (0x00c4, b'A', 0x308),
    (0x00c5, b'A', 0x30a),
    (0x00c7, b'C', 0x327),
    (0x00c8, b'E', 0x300),
    (0x00c9, b'E', 0x301),
    (0x00ca, b'E', 0x302),
    (0x00cb, b'E', 0x308),
    (0x00cc, b'I', 0x300),
    (0x00cd, b'I', 0x301),
    (0x00ce, b'I', 0x302),
    (0x00cf, b'I', 0x308),
    (0x00d1, b'N', 0x303),
    (0x00d2, b'O', 0x300),
    (0x00d3, b'O', 0x301),
    (0x00d4, b'O', 0x302),
    (0x00d5, b'O', 0x303),
    (0x00d6, b'O', 0x308),
    (0x00d9, b'U', 0x300),
    (0x00da, b'U', 0x301),
    (0x00db, b'U', 0x302),
    (0x00dc, b'U', 0x308),
    (0x00dd, b'Y', 0x301),
    (0x00e0, b'a', 0x300),
    (0x00e1, b'a', 0x301),
    (0x00e2, b'a', 0x302),
    (0x00e3, b'a', 0x303),
    (0x00e4, b'a', 0x308),
    (0x00e5, b'a', 0x30a),
    (0x00e7, b'c', 0x327),
    (0x00e8, b'e', 0x300),
    (0x00e9, b'e', 0x301),
    (0x00ea, b'e', 0x302),
    (0x00eb, b'e', 0x308),
    (0x00ec, b'i', 0x300),
    (0x00ed, b'i', 0x301),
    (0x00ee, b'i', 0x302),
    (0x00ef, b'i', 0x308),
    (0x00f1, b'n', 0x303),
    (0x00f2, b'o', 0x300),
    (0x00f3, b'o', 0x301),
    (0x00f4, b'o', 0x302),
    (0x00f5, b'o', 0x303),
    (0x00f6, b'o', 0x308),
    (0x00f9, b'u', 0x300),
    (0x00fa, b'u', 0x301),
    (0x00fb, b'u', 0x302),
    (0x00fc, b'u', 0x308),
    (0x00fd, b'y', 0x301),
    (0x00ff, b'y', 0x308),
    (0x0100, b'A', 0x304),
    (0x0101, b'a', 0x304),
    (0x0102, b'A', 0x306),
    (0x0103, b'a', 0x306),
    (0x0104, b'A', 0x328),
    (0x0105, b'a', 0x328),
    (0x0106, b'C', 0x301),
    (0x0107, b'c', 0x301),
    (0x0108, b'C', 0x302),
    (0x0109, b'c', 0x302),
    (0x010a, b'C', 0x307),
    (0x010b, b'c', 0x307),
    (0x010c, b'C', 0x30c),
    (0x010d, b'c', 0x30c),
    (0x010e, b'D', 0x30c),
    (0x010f, b'd', 0x30c),
    (0x0112, b'E', 0x304),
    (0x0113, b'e', 0x304),
    (0x0114, b'E', 0x306),
    (0x0115, b'e', 0x306),
    (0x0116, b'E', 0x307),
    (0x0117, b'e', 0x307),
    (0x0118, b'E', 0x328),
    (0x0119, b'e', 0x328),
    (0x011a, b'E', 0x30c),
    (0x011b, b'e', 0x30c),
    (0x011c, b'G', 0x302),
    (0x011d, b'g', 0x302),
    (0x011e, b'G', 0x306),
    (0x011f, b'g', 0x306),
    (0x0120, b'G', 0x307),
    (0x0121, b'g', 0x307),
    (0x0122, b'G', 0x327),
    (0x0123, b'g', 0x327),
    (0x0124, b'H', 0x302),
    (0x0125, b'h', 0x302),
    (0x0128, b'I', 0x303),
    (0x0129, b'i', 0x303),
    (0x012a, b'I', 0x304),
    (0x012b, b'i', 0x304),
    (0x012c, b'I', 0x306),
    (0x012d, b'i', 0x306),
    (0x012e, b'I', 0x328),
    (0x012f, b'i', 0x328),
    (0x0130, b'I', 0x307),
    (0x0134, b'J', 0x302),
    (0x0135, b'j', 0x302),
    (0x0136, b'K', 0x327),
    (0x0137, b'k', 0x327),
    (0x0139, b'L', 0x301),
    (0x013a, b'l', 0x301),
    (0x013b, b'L', 0x327),
    (0x013c, b'l', 0x327),
    (0x013d, b'L', 0x30c),
    (0x013e, b'l', 0x30c),
    (0x0143, b'N', 0x301),
    (0x0144, b'n', 0x301),
    (0x0145, b'N', 0x327),
    (0x0146, b'n', 0x327),
    (0x0147, b'N', 0x30c),
    (0x0148, b'n', 0x30c),
    (0x014c, b'O', 0x304),
    (0x014d, b'o', 0x304),
    (0x014e, b'O', 0x306),
    (0x014f, b'o', 0x306),
    (0x0150, b'O', 0x30b),
    (0x0151, b'o', 0x30b),
    (0x0154, b'R', 0x301),
    (0x0155, b'r', 0x301),
    (0x0156, b'R', 0x327),
    (0x0157, b'r', 0x327),
    (0x0158, b'R', 0x30c),
    (0x0159, b'r', 0x30c),
    (0x015a, b'S', 0x301),
    (0x015b, b's', 0x301),
    (0x015c, b'S', 0x302),
    (0x015d, b's', 0x302),
    (0x015e, b'S', 0x327),
    (0x015f, b's', 0x327),
    (0x0160, b'S', 0x30c),
    (0x0161, b's', 0x30c),
    (0x0162, b'T', 0x327),
    (0x0163, b't', 0x327),
    (0x0164, b'T', 0x30c),
    (0x0165, b't', 0x30c),
    (0x0168, b'U', 0x303),
    (0x0169, b'u', 0x303),
    (0x016a, b'U', 0x304),
    (0x016b, b'u', 0x304),
    (0x016c, b'U', 0x306),
    (0x016d, b'u', 0x306),
    (0x016e, b'U', 0x30a),
    (0x016f, b'u', 0x30a),
    (0x0170, b'U', 0x30b),
    (0x0171, b'u', 0x30b),
    (0x0172, b'U', 0x328),
    (0x0173, b'u', 0x328),
    (0x0174, b'W', 0x302),
    (0x0175, b'w', 0x302),
    (0x0176, b'Y', 0x302),
    (0x0177, b'y', 0x302),
    (0x0178, b'Y', 0x308),
    (0x0179, b'Z', 0x301),
    (0x017a, b'z', 0x301),
    (0x017b, b'Z', 0x307),
    (0x017c, b'z', 0x307),
    (0x017d, b'Z', 0x30c),
    (0x017e, b'z', 0x30c),
];

#[test]
fn spellings_agree(rt: HostRuntime) -> Result<(), Fail> {
    let mut last = read(b" ")?;
    for (letter, base, mark) in MAPPINGS {
        let name = read(&two_bytes(letter))?;
        let [first, second] = two_bytes(mark);
        assert!(rt; name == read(&[base, first, second])?);
        assert!(rt; name != last);
        last = name;
    }
    Ok(())
}

// The UTF-8 of a code point from 0080 to 07FF, as an array: `char::encode_utf8` would fill a buffer beside it.
fn two_bytes(c: u16) -> [u8; 2] {
    [0xc0 | ((c >> 6) & 0x1f) as u8, 0x80 | (c & 0x3f) as u8]
}
