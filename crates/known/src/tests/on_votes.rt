use kinds::{Kind, Right};
use votes::{Majority, Threshold, Vote};

// The code of an answer; none if it is open.
fn code_of(answer: Option<Right>) -> Option<u32> {
    answer.map(|right| right.code())
}

#[test]
fn two_of_three(rt: HostRuntime) {
    let entries = [Right::read(2), Right::read(2), Right::read(0)];
    assert_eq!(rt; code_of(Threshold.vote(&entries, 1)), Some(2));
    assert_eq!(rt; code_of(Majority.vote(&entries, 1)), Some(2));
}

#[test]
fn two_against_two(rt: HostRuntime) {
    let entries = [
        Right::read(2),
        Right::read(2),
        Right::read(0),
        Right::read(0),
    ];
    assert_eq!(rt; code_of(Majority.vote(&entries, 1)), Some(0));
    assert_eq!(rt; code_of(Threshold.vote(&entries, 1)), None);
}

#[test]
fn open_entries_count(rt: HostRuntime) {
    let entries = [Right::read(2), None, Right::read(2), None];
    assert_eq!(rt; code_of(Majority.vote(&entries, 1)), Some(0));
    assert_eq!(rt; code_of(Threshold.vote(&entries, 1)), Some(2));
    assert_eq!(rt; code_of(Threshold.vote(&entries, 2)), None);
}

#[test]
fn largest_t(rt: HostRuntime) {
    let entries = [Right::read(1), Right::read(1)];
    assert_eq!(rt; code_of(Threshold.vote(&entries, u32::MAX)), None);
    assert_eq!(rt; code_of(Majority.vote(&entries, u32::MAX)), Some(1));
}
