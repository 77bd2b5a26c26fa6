//! Codes and values of the kinds.
ghost use Rattle.std.specs.Prelude.{◌≡◌};
ghost use Rattle.std.specs.Option.{option_map};
ghost use Rattle.answers.specs.Replies.{replied};
ghost use Rattle.answers.specs.Values.{code_or, code_reply, right_reply, trigger_reply, right_named, value_with};

use crate::forms::{Answer, Shown, Value};
use fields::KindName;
use kinds::{Kind, Minutes, Right, Slope, Trigger};
use sheets::RightName;

// The value of one kind that has the code.
fn value_of<K: Shown>(code: u32) -> Option<Value>
    ensures { result ≡ option_map K.Shown.as_value (K.Kind.model.value_of code) }
{
    K::read(code).map(|value| value.value())
}

// The value of the kind with this name that has the code. The kind is known only when the program runs, so that the type is picked here.
fn value_with(kind: KindName, code: u32) -> Option<Value>
    ensures { result ≡ value_with kind code }
{
    match kind {
        KindName::Right => value_of::<Right>(code),
        KindName::Trigger => value_of::<Trigger>(code),
    }
}

// Which value has the code.
pub(crate) fn code_answer(kind: KindName, code: u32) -> Answer
    ensures { replied result ≡ code_reply kind code }
{
    value_with(kind, code).map_or(Answer::NoValue { kind, code }, Answer::Found)
}

// The code of a value of the kind, if there is such a value.
fn code_or(kind: KindName, code: Option<u32>) -> Answer
    ensures { replied result ≡ code_or kind code }
{
    code.map_or(Answer::NoSuch(kind), Answer::Code)
}

// The right with this name, if its minutes are in range.
fn right_named(name: RightName) -> Option<Right>
    ensures { result ≡ right_named name }
{
    match name {
        RightName::Withdrawn => Some(Right::Withdrawn),
        RightName::Watch => Some(Right::Watch),
        RightName::Operate { minutes } => Minutes::new(minutes).map(Right::Operate),
    }
}

// The code of a right.
pub(crate) fn right_answer(name: RightName) -> Answer
    ensures { replied result ≡ right_reply name }
{
    code_or(KindName::Right, right_named(name).map(|right| right.code()))
}

// The code of a trigger setting.
pub(crate) fn trigger_answer(channel: u32, slope: Slope, level: i32) -> Answer
    ensures { replied result ≡ trigger_reply channel slope level }
{
    let found = Trigger::new(channel, slope, level);
    code_or(KindName::Trigger, found.map(|trigger| trigger.code()))
}
