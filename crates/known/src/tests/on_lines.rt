ghost use Rattle.std.specs.Prelude.{◌≡◌, true};
ghost use Rattle.lines.specs.Calls.{after_add};
ghost use Rattle.lines.specs.Piles.{muted};
ghost use Rattle.lines.specs.States.{blank, meaning, view};

use lines::{Clean, Line, Mute, Record, Script, ScriptFault, Way};
use masks::has;
use std::test::Fail;

// From unit 3 to unit 1 in round 2, at place 0.
const WAY: Way = Way {
    round: 2,
    from: 3,
    to: 1,
    place: 0,
};

// Unit 3 says 0 on that way.
const TOLD: Record = Record { way: WAY, code: 0 };

// The same of another sender.
fn told_by(from: u32) -> Record {
    Record {
        way: Way { from, ..WAY },
        code: 0,
    }
}

// What lent memory holds once the script over it has taken a record.
fn lend(table: &mut [Record], added: Record)
    ensures { table.new ≡ (after_add (blank table.old) added).table }
{
    let mut script = Script::new(table);
    let _ = script.add(added);
}

// The law of a line, asked of one letter: it never fails.
fn keeps_law<L: Line>(line: &L, way: Way, code: u32) -> bool
    ensures { result ≡ true }
{
    has(line.mask(), way.from) || line.carry(way, code) == Some(code)
}

// What arrives by two mute lines over a script follows from what each of the three means.
fn ask_pile(script: &Script, lower: u32, upper: u32, way: Way, code: u32) -> Option<u32>
    ensures { result ≡ (muted upper (muted lower (meaning (view script.now)))).arrives way code }
{
    let below = Mute {
        below: script,
        units: lower,
    };
    let pile = Mute {
        below: &below,
        units: upper,
    };
    pile.carry(way, code)
}

#[test]
fn clean_line(rt: HostRuntime) {
    assert_eq!(rt; Clean.mask(), 0);
    assert_eq!(rt; Clean.carry(WAY, 2), Some(2));
}

#[test]
fn script_tells_one_letter(rt: HostRuntime) -> Result<(), Fail> {
    let mut table = [Record::default(); 2];
    let mut script = Script::new(&mut table);
    script.add(TOLD)?;
    assert_eq!(rt; script.mask(), 8);
    assert_eq!(rt; script.carry(WAY, 2), Some(0));
    assert_eq!(rt;
        script.carry(Way { round: 1, ..WAY }, 2),
        Some(2),
        "another round"
    );
    assert_eq!(rt;
        script.carry(Way { from: 2, ..WAY }, 2),
        Some(2),
        "another sender"
    );
    assert_eq!(rt;
        script.carry(Way { to: 0, ..WAY }, 2),
        Some(2),
        "another receiver"
    );
    assert_eq!(rt;
        script.carry(Way { place: 1, ..WAY }, 2),
        Some(2),
        "another place"
    );
    Ok(())
}

#[test]
fn first_record_wins(rt: HostRuntime) -> Result<(), Fail> {
    let mut table = [Record::default(); 3];
    let mut script = Script::new(&mut table);
    script.add(Record {
        code: 4294967295,
        ..TOLD
    })?;
    script.add(TOLD)?;
    assert_eq!(rt; script.carry(WAY, 2), None, "nothing arrives");
    assert_eq!(rt; script.used(), 2);
    assert_eq!(rt; script.capacity(), 3);
    Ok(())
}

#[test]
fn preset_script(rt: HostRuntime) -> Result<(), Fail> {
    let mut table = [TOLD, told_by(2), TOLD];
    let mut script = Script::new(&mut table);
    script.preset(2, 8)?;
    assert_eq!(rt; script.carry(WAY, 2), Some(0));
    assert_eq!(rt;
        script.carry(Way { from: 2, ..WAY }, 2),
        Some(2),
        "a sender outside the mask"
    );
    assert_eq!(rt; script.preset(4, 1), Err(ScriptFault::Full));
    assert_eq!(rt; script.used(), 2);
    assert_eq!(rt; script.mask(), 8);
    Ok(())
}

#[test]
fn refused_records(rt: HostRuntime) -> Result<(), Fail> {
    let mut table = [Record::default(); 1];
    let mut script = Script::new(&mut table);
    assert_eq!(rt; script.add(told_by(21)), Err(ScriptFault::Sender));
    assert_eq!(rt; script.used(), 0);
    script.add(told_by(20))?;
    assert_eq!(rt; script.add(told_by(21)), Err(ScriptFault::Sender));
    assert_eq!(rt; script.add(TOLD), Err(ScriptFault::Full));
    assert_eq!(rt; script.used(), 1);
    assert_eq!(rt; script.mask(), 0x0010_0000);
    assert_eq!(rt; script.carry(Way { from: 20, ..WAY }, 2), Some(0));
    assert_eq!(rt; ScriptFault::Sender.number(), 16);
    assert_eq!(rt; ScriptFault::Full.number(), 18);
    Ok(())
}

#[test]
fn pile_of_lines(rt: HostRuntime) -> Result<(), Fail> {
    let mut table = [Record::default(); 1];
    lend(&mut table, TOLD);
    let mut script = Script::new(&mut table);
    script.preset(1, 8)?;
    assert_eq!(rt; ask_pile(&script, 2, 5, WAY, 2), Some(0));
    assert_eq!(rt;
        ask_pile(
            &script,
            2,
            5,
            Way {
                from: 1,
                to: 3,
                ..WAY
            },
            2
        ),
        None
    );
    assert_eq!(rt; ask_pile(&script, 2, 5, Way { from: 2, ..WAY }, 2), None);
    assert_eq!(rt; ask_pile(&script, 2, 5, Way { from: 4, ..WAY }, 2), Some(2));
    let below = Mute {
        below: &script,
        units: 2,
    };
    let pile = Mute {
        below: &below,
        units: 5,
    };
    assert_eq!(rt; pile.mask(), 15);
    assert!(rt;
        keeps_law(&pile, Way { from: 4, ..WAY }, 2) && keeps_law(&pile, Way { from: 2, ..WAY }, 2)
    );
    Ok(())
}

#[test]
fn most_records(rt: HostRuntime) -> Result<(), Fail> {
    let mut table = [Record::default(); 65536];
    let mut script = Script::new(&mut table);
    assert_eq!(rt; script.preset(65536, 8), Err(ScriptFault::Full));
    script.preset(65534, 0)?;
    script.add(TOLD)?;
    assert_eq!(rt; script.carry(WAY, 2), Some(0));
    assert_eq!(rt; script.add(TOLD), Err(ScriptFault::Full));
    assert_eq!(rt; script.used(), 65535);
    Ok(())
}
