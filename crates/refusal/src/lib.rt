// The refusals of documents 01 and 02, each with its number.
#![tactic(auto)]

ghost use Rattle.std.specs.Prelude.{◌≡◌};
ghost use Rattle.refusal.specs.Number.{number_of};

use std::error::Error;
use std::fmt;

// Why something is refused.
#[derive(Clone, Copy, Debug, PartialEq, Eq)]
pub enum Refusal {
    // Units and descriptors.
    ObuCount = 1,
    Length = 2,
    EmptyObu = 3,
    ObuHeader = 4,
    ObuSize = 5,
    TileList = 6,
    Order = 7,
    NoRoom = 8,
    NoStartCode = 9,
    IllegalPayload = 10,
    ObuContent = 42,
    Descriptor = 40,
    DescriptorField = 41,
    // Segments.
    SegmentLength = 20,
    SyncByte = 21,
    TransportError = 22,
    PacketHeader = 23,
    ContinuityCounter = 24,
    Pat = 25,
    Pmt = 26,
    EntryCount = 27,
    Av1Entry = 28,
    PesHeader = 29,
    NoTimes = 30,
    NoPcr = 31,
    PesLength = 32,
    NoTables = 33,
    UnitCount = 34,
    // The requests of document 02.
    CutShort = 43,
    Edition = 44,
    Sheet = 45,
    ArrivalTime = 46,
    ReplayBounds = 47,
    MasteringForm = 48,
    MasteringBounds = 49,
    QueueFull = 50,
    QueuedUnit = 51,
    Channel = 52,
    PacketsToSend = 53,
}

// A refusal and its place.
#[derive(Clone, Copy, Debug, PartialEq, Eq)]
pub struct Refused {
    pub why: Refusal,
    pub place: usize,
}

impl Refusal {
    // Its number.
    pub fn number(self) -> u8
        ensures { result ≡ number_of self }
    {
        self as u8
    }

    // This refusal, at a place.
    pub fn at(self, place: usize) -> Refused
        ensures { result ≡ record { why = self; place = place } }
    {
        Refused { why: self, place }
    }
}

// The number and the place.
impl fmt::Display for Refused {
    fn fmt<W: fmt::Write>(&self, f: &mut fmt::Formatter<W>) -> fmt::Result {
        write!(f, "{} {}", self.why.number(), self.place)
    }
}

impl Error for Refused {}
