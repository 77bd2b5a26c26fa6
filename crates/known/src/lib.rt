//! Results that are known beforehand, shown of the layers' definitions and worked out again by their code.
#![tactic(auto)]

ghost use Rattle.std.specs.Prelude.{◌≡◌, true};
ghost use Rattle.known.specs.Results.{Known, has_code};

#[cfg(test)]
mod tests;

use kinds::{Kind, Right, Slope, Trigger};
use places::shape::Shape;
use votes::{Majority, Threshold, Vote};

fn rights() -> bool
    ensures { result ≡ true }
{
    Right::read(61).is_some() && Right::read(62).is_none()
}

fn triggers() -> bool
    ensures { result ≡ true }
{
    Trigger::new(3, Slope::Falling, -5).is_some_and(|trigger| trigger.code() == 22523)
        && Trigger::read(32768).is_none()
}

fn places() -> bool
    ensures { result ≡ true }
{
    Shape::new(4, 1, 4).is_ok_and(|shape| shape.place(&[1, 0, 3]) == Ok(1))
}

fn widths() -> bool
    ensures { result ≡ true }
{
    Shape::new(21, 0, 4).is_ok_and(|shape| shape.width(4) == Ok(6840))
}

// Whether the answer is the right with the code.
fn is_right(answer: Option<Right>, code: u32) -> bool
    ensures { result ≡ has_code answer code }
{
    answer.is_some_and(|right| right.code() == code)
}

fn votes() -> bool
    ensures { result ≡ true }
{
    let three = [Right::read(2), Right::read(2), Right::read(0)];
    let four = [
        Right::read(2),
        Right::read(2),
        Right::read(0),
        Right::read(0),
    ];
    is_right(Threshold.vote(&three, 1), 2)
        && is_right(Majority.vote(&four, 1), 0)
        && Threshold.vote(&four, 1).is_none()
}

/// Works the known results out again, and answers that all of them came out. That they hold of the definitions is promised besides.
pub fn known_results() -> bool
    ensures table { Known }
    ensures value { result ≡ true }
{
    rights() && triggers() && places() && widths() && votes()
}
