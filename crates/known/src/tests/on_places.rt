use places::fault::PlaceFault;
use places::shape::Shape;
use std::test::Fail;

#[test]
fn sequence_1_0_3_has_place_1(rt: HostRuntime) -> Result<(), Fail> {
    let shape = Shape::new(4, 1, 4)?;
    assert_eq!(rt; shape.place(&[1, 0, 3])?, 1);
    assert_eq!(rt; shape.way_back(3, 1)?, (3, 0));
    assert_eq!(rt; shape.child(2, 0, 1)?, (3, 1));
    assert_eq!(rt; shape.place(&[1, 0, 0]), Err(PlaceFault::Absent));
    let found = shape.sequence(3, 1)?;
    let units = found.units();
    assert!(rt; units.len() == 3);
    assert!(rt; units[0] == 1 && units[1] == 0 && units[2] == 3);
    Ok(())
}

#[test]
fn sizes_of_a_full_rack(rt: HostRuntime) -> Result<(), Fail> {
    let shape = Shape::new(21, 0, 4)?;
    assert_eq!(rt; shape.width(4)?, 6840);
    assert_eq!(rt; shape.tree_size(), 7241);
    assert_eq!(rt; shape.values(), 152061);
    assert_eq!(rt; shape.first_entry(20, 4)?, 20 * 7241 + 401);
    assert_eq!(rt; shape.width(5), Err(PlaceFault::Absent));
    Ok(())
}
