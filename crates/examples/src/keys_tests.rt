//! Type numbers and trays: limits, homes and order.
use keys::{AboveLimit, Key, Tray, TypeNumber};
use std::test::Fail;

#[test]
fn trays_have_a_limit(rt: HostRuntime) -> Result<(), Fail> {
    assert_eq!(rt; Tray::new(0)?.number(), 0);
    assert_eq!(rt; Tray::new(999)?.number(), 999);
    for number in 1000..=u16::MAX {
        assert_eq!(rt; Tray::new(number).map_err(AboveLimit::number), Err(13));
    }
    Ok(())
}

// A number, the count of cells, and the home.
const TRAY_HOMES: [(u16, usize, usize); 12] = [
    (0, 1, 0),
    (999, 1, 0),
    (0, 10, 0),
    (99, 10, 0),
    (100, 10, 1),
    (145, 10, 1),
    (931, 10, 9),
    (999, 10, 9),
    (500, 3, 1),
    (333, 3, 0),
    (334, 3, 1),
    (999, 65_536, 65_470),
];

#[test]
fn trays_have_homes(rt: HostRuntime) -> Result<(), Fail> {
    for (number, cells, home) in TRAY_HOMES {
        assert_eq!(rt; Tray::new(number)?.home(cells), home);
    }
    Ok(())
}

const TYPE_HOMES: [(u32, usize, usize); 10] = [
    (0, 1, 0),
    (u32::MAX, 1, 0),
    (0, 65_536, 0),
    (65_535, 65_536, 0),
    (65_536, 65_536, 1),
    (u32::MAX, 65_536, 65_535),
    (2_147_483_647, 2, 0),
    (2_147_483_648, 2, 1),
    (7, 512, 0),
    (u32::MAX, 512, 511),
];

#[test]
fn types_have_homes(rt: HostRuntime) {
    for (number, cells, home) in TYPE_HOMES {
        assert_eq!(rt; TypeNumber(number).home(cells), home);
    }
}

#[test]
fn numbers_are_compared_by_size(rt: HostRuntime) -> Result<(), Fail> {
    assert!(rt; TypeNumber(1).compare(TypeNumber(2)).is_lt());
    assert!(rt; TypeNumber(2).compare(TypeNumber(2)).is_eq());
    assert!(rt; TypeNumber(u32::MAX).compare(TypeNumber(0)).is_gt());
    assert!(rt; Tray::new(1)?.compare(Tray::new(2)?).is_lt());
    assert!(rt; Tray::new(999)?.compare(Tray::new(999)?).is_eq());
    assert!(rt; Tray::new(256)?.compare(Tray::new(255)?).is_gt());
    Ok(())
}
