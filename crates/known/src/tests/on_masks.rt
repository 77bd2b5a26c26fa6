use masks::{all_below, count, has, join, with};

#[test]
fn units_of_a_mask(rt: HostRuntime) {
    assert!(rt; has(8, 3) && !has(8, 2));
    assert!(rt; has(0x8000_0000, 31) && !has(0xffff_ffff, 32));
    assert_eq!(rt; join(5, 6), 7);
    assert_eq!(rt; with(8, 0), 9);
    assert_eq!(rt; with(8, 32), 8);
}

#[test]
fn sizes_and_bounds(rt: HostRuntime) {
    assert_eq!(rt; count(0xffff_ffff), 32);
    assert_eq!(rt; count(0), 0);
    assert!(rt; all_below(15, 4) && !all_below(16, 4));
    assert!(rt; all_below(0, 0) && all_below(0xffff_ffff, 32));
}
