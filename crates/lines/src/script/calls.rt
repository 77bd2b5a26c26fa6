ghost use Rattle.std.specs.Prelude.{◌≡◌, ◌+◌, [], ◌∷◌, ◌++◌, length, slice_set};
ghost use Rattle.lines.specs.Calls.{add_refusal, after_add, after_preset, preset_refusal};
ghost use Rattle.lines.specs.Faults.{answer, if_granted};
ghost use Rattle.lines.specs.States.{Becomes, blank, in_use, view};

use super::{Record, Script};
use crate::fault::ScriptFault;
use masks::with;

// The highest sender that an added record may have.
const HIGHEST_SENDER: u32 = 20;

// The most records that a script may have.
const MOST_RECORDS: usize = 65535;

impl<'a> Script<'a> {
    /// A script with no record and no loose unit over lent memory, none of which it alters.
    pub fn new(table: &'a mut [Record]) -> Script<'a>
        ensures made { view result ≡ blank table.old }
        ensures same { result.table.ghost_name ≡ table.entry.ghost_name }
    {
        Script {
            table,
            used: 0,
            loose: 0,
        }
    }

    /// Makes the table's first `used` entries, as they stand, the script's records, and `loose` its mask.
    /// Refused by 18, and then nothing changes, where there are not so many entries, or more than 65,535 are asked for.
    pub fn preset(&mut self, used: usize, loose: u32) -> Result<(), ScriptFault>
        ensures value { result ≡ answer (preset_refusal (view self.old) used) }
        ensures after { Becomes self.old self.new (after_preset (view self.old) used loose) }
    {
        if used > self.table.len() || used > MOST_RECORDS {
            return Err(ScriptFault::Full);
        }
        self.used = used;
        self.loose = loose;
        Ok(())
    }

    /// Writes the record into the table's next free entry and puts its sender in the mask.
    /// Refused by 16 where the sender is above 20, and by 18 where the table is full or 65,535 records are in use; then nothing changes.
    pub fn add(&mut self, added: Record) -> Result<(), ScriptFault>
        ensures value { result ≡ answer (add_refusal (view self.old) added) }
        ensures after { Becomes self.old self.new (after_add (view self.old) added) }
        ensures records { in_use (view self.new) ≡ if_granted (add_refusal (view self.old) added) (in_use (view self.old) ++ added ∷ []) (in_use (view self.old)) }
    {
        if added.way.from > HIGHEST_SENDER {
            return Err(ScriptFault::Sender);
        }
        if self.used >= self.table.len() || self.used >= MOST_RECORDS {
            return Err(ScriptFault::Full);
        }
        self.table[self.used] = added;
        self.used += 1;
        self.loose = with(self.loose, added.way.from);
        Ok(())
    }
}
