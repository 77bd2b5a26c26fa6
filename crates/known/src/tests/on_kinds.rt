use kinds::{Kind, Right, Slope, Trigger};
use std::test::Fail;

// The code of what a code reads as.
fn read_back<K: Kind>(code: u32) -> Option<u32> {
    K::read(code).map(|value| value.code())
}

#[test]
fn operate_ends_at_sixty_minutes(rt: HostRuntime) -> Result<(), Fail> {
    let Some(right) = Right::read(61) else {
        return Err(Fail::new("61 does not read"));
    };
    match right {
        Right::Operate(m) => assert_eq!(rt; m.count, 60),
        _ => return Err(Fail::new("61 is not to operate")),
    }
    assert_eq!(rt; read_back::<Right>(62), None);
    Ok(())
}

#[test]
fn trigger_has_its_code(rt: HostRuntime) -> Result<(), Fail> {
    let Some(trigger) = Trigger::new(3, Slope::Falling, -5) else {
        return Err(Fail::new("out of range"));
    };
    assert_eq!(rt; trigger.code(), 22523);
    assert_eq!(rt; Trigger::ground().code(), 2048);
    assert!(rt; Trigger::new(5, Slope::Rising, 0).is_none());
    Ok(())
}

#[test]
fn codes_read_back(rt: HostRuntime) {
    for code in [0, 1, 2, 61] {
        assert_eq!(rt; read_back::<Right>(code), Some(code));
    }
    for code in [0, 4096, 22523, 32767] {
        assert_eq!(rt; read_back::<Trigger>(code), Some(code));
    }
    assert_eq!(rt; read_back::<Trigger>(32768), None);
}
