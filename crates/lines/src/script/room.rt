ghost use Rattle.std.specs.Prelude.{◌≡◌, length};
ghost use Rattle.lines.specs.States.{view};

use super::Script;

impl Script<'_> {
    /// How many records the script has.
    pub fn used(&self) -> usize
        ensures { result ≡ (view self.now).used }
    {
        self.used
    }

    /// How many records the table has room for.
    pub fn capacity(&self) -> usize
        ensures { result ≡ length (view self.now).table }
    {
        self.table.len()
    }
}
