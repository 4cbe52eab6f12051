// The rows of a sheet's three sections.

// A stream of the program map.
#[derive(Drop)]
pub struct StreamRow {
    pub pid: u64,
    pub stream_type: u64,
}

// A unit: the index of its first packet, its length as carried, and its times.
#[derive(Clone, Copy)]
pub struct UnitRow {
    pub first_packet: u64,
    pub length: u64,
    pub pts: u64,
    pub dts: u64,
}

// An OBU: its unit's number and its type, and where in the unit its payload stands, as carried.
#[derive(Clone, Copy)]
pub struct ObuRow {
    pub unit: u64,
    pub obu_type: u64,
    pub offset: u64,
    pub length: u64,
}

// How many rows each section has.
#[derive(Drop)]
pub struct Counts {
    pub streams: u64,
    pub units: u64,
    pub obus: u64,
}
