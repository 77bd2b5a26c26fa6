use plans::plan::Plan;
use std::test::Fail;

#[test]
fn rounds_of_gear_3(rt: HostRuntime) -> Result<(), Fail> {
    let plan = Plan::new(17, 4, 3, 16)?;
    assert_eq!(rt; plan.rounds(), 6);
    assert_eq!(rt; plan.block(0), Some(3));
    assert_eq!(rt; plan.block(1), Some(2));
    assert_eq!(rt; plan.block(2), None);
    assert!(rt; plan.conversion_due(4) && plan.conversion_due(6));
    assert!(rt; !plan.conversion_due(5) && !plan.conversion_due(1));
    Ok(())
}

#[test]
fn the_smallest_refusal_comes_first(rt: HostRuntime) {
    assert!(rt; refusal(3, 9, 1, 9) == 1 && refusal(22, 1, 0, 0) == 1);
    assert!(rt; refusal(4, 9, 1, 9) == 2 && refusal(4, 1, 4, 0) == 2);
    assert!(rt; refusal(4, 2, 0, 9) == 3 && refusal(21, 1, 2, 0) == 3);
    assert!(rt; refusal(4, 1, 0, 4) == 4 && refusal(4, 1, 0, 3) == 0);
    assert!(rt; refusal(4, 0xffff_ffff, 0, 0) == 3 && refusal(8, 2, 2, 0) == 3);
}

// The number of the refusal; 0 where nothing is refused, since the values that the tests expect stay numbers.
fn refusal(n: u32, t: u32, gear: u32, source: u32) -> u32 {
    Plan::new(n, t, gear, source).map_or_else(|fault| fault.number(), |_| 0)
}
