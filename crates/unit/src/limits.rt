// The limits of document 01, "One access unit".

// The most bytes of a carried unit.
pub const MOST_CARRIED: usize = 1573056;

// The most OBUs of a unit.
pub const MOST_OBUS: usize = 64;

// The most bytes of an OBU, and of the OBUs of a unit together.
pub const MOST_OBU_BYTES: usize = 1048576;
