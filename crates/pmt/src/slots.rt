// The slots of the entries.
ghost use Rattle.std.specs.Prelude.{◌≡◌, ◌+◌, ◌<◌, ◌==◌, set, take};
ghost use Rattle.std.specs.List.{list_any};
ghost use Rattle.pmt.specs.Parts.{no_entry_yet};

use crate::entries::Entry;

// So many entries in the first of twelve slots; the other slots hold zeros.
#[derive(Clone, Copy)]
pub(crate) struct Entries {
    // Stays: fixed memory, no heap; a program map has at most twelve entries.
    pub(crate) slots: [Entry; 12],
    pub(crate) count: usize,
}

impl Entries {
    // Returns no entries.
    pub(crate) fn none() -> Entries
        ensures { result ≡ no_entry_yet }
    {
        let zeros = Entry {
            pid: 0,
            stream_type: 0,
        };
        Entries {
            slots: [zeros; 12],
            count: 0,
        }
    }

    // Returns true if an entry has the PID.
    pub(crate) fn contains_pid(&self, pid: u16) -> bool
        ensures { result ≡ list_any (λ e. pid == e.pid) (take self.now.count self.now.slots) }
    {
        self.slots
            .iter()
            .take(self.count)
            .any(|entry| pid == entry.pid)
    }

    // Adds an entry behind the others.
    pub(crate) fn push(&mut self, entry: Entry)
        requires { self.old.count < 12 }
        ensures { self.new ≡ record { slots = set self.old.slots self.old.count entry; count = self.old.count + 1 } }
    {
        self.slots[self.count] = entry;
        self.count += 1;
    }
}
