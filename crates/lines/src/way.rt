/// The way of a letter.
#[derive(Clone, Copy, Default, PartialEq, Eq, Debug)]
pub struct Way {
    pub round: u32,
    /// The sender.
    pub from: u32,
    /// The receiver.
    pub to: u32,
    /// The place that the letter is about.
    pub place: u32,
}
