// What the packets of a segment have said so far, as the code keeps it: a section by the packet that brought it.
ghost use Rattle.std.specs.Prelude.{◌≡◌};
ghost use Rattle.tables.specs.Tables.{slot_in};

use packet::Header;
use psi::Program;

// What a packet's PID is at that moment; of a listed one, the slot of its record.
#[derive(Clone, Copy)]
pub enum Kind {
    Null,
    Pat,
    Map,
    Av1(usize),
    Listed(usize),
    Unlisted,
}

impl Kind {
    // Returns the slot of the record of a PID of this kind; `None` if it has no record.
    pub(crate) fn slot(self) -> Option<usize>
        ensures { result ≡ slot_in self }
    {
        match self {
            Kind::Pat => Some(0),
            Kind::Map => Some(1),
            Kind::Av1(slot) => Some(slot),
            Kind::Listed(slot) => Some(slot),
            Kind::Null => None,
            Kind::Unlisted => None,
        }
    }
}

// A packet that passed 21, 22 and 23: its index, what its header says, and what its PID is.
#[derive(Clone, Copy)]
pub struct Packet {
    pub index: usize,
    pub header: Header,
    pub kind: Kind,
}

// The first PAT: the packet that brought it, and what it says.
#[derive(Clone, Copy)]
pub struct PatFound {
    pub packet: usize,
    pub says: Program,
}

// The first PMT: the packet that brought it, its PCR PID, the PID of its AV1 entry, and how many streams it lists.
#[derive(Clone, Copy)]
pub struct PmtFound {
    pub packet: usize,
    pub pcr_pid: u16,
    pub av1_pid: u16,
    pub listed: usize,
}
