// The sheet beside a segment: writing it, reading it, and finding a unit in it.
ghost use Rattle.std.specs.Prelude.{◌≡◌};
ghost use Rattle.refusal.specs.Number.{says};
ghost use Rattle.answers.specs.Sheets.{written_answer, sheet_answer, found_answer};

use refusal::Refused;
use sheet::{Counts, UnitRow};

// count: the bytes of the sheet.
#[repr(C)]
#[derive(Default, Drop)]
pub struct SheetWritten {
    pub number: u64,
    pub place: u64,
    pub count: u64,
}

// The streams, units and OBUs of the sheet.
#[repr(C)]
#[derive(Default, Drop)]
pub struct SheetAnswer {
    pub number: u64,
    pub place: u64,
    pub streams: u64,
    pub units: u64,
    pub obus: u64,
}

// found 0: there is no unit of this number, and the other fields are 0.
#[repr(C)]
#[derive(Default, Drop)]
pub struct SheetFound {
    pub number: u64,
    pub place: u64,
    pub found: u64,
    pub first_packet: u64,
    pub length: u64,
    pub pts: u64,
    pub dts: u64,
}

// What writing answered.
impl From<Result<usize, Refused>> for SheetWritten {
    ghost from_gives = { λ written answer. answer ≡ written_answer (says written) };

    fn from(written: Result<usize, Refused>) -> SheetWritten {
        match written {
            Ok(count) => SheetWritten {
                count: count as u64,
                ..SheetWritten::default()
            },
            Err(refused) => SheetWritten {
                number: refused.why.number() as u64,
                place: refused.place as u64,
                count: 0,
            },
        }
    }
}

// What reading answered.
impl From<Result<Counts, Refused>> for SheetAnswer {
    ghost from_gives = { λ read answer. answer ≡ sheet_answer (says read) };

    fn from(read: Result<Counts, Refused>) -> SheetAnswer {
        match read {
            Ok(counts) => SheetAnswer {
                number: 0,
                place: 0,
                streams: counts.streams,
                units: counts.units,
                obus: counts.obus,
            },
            Err(refused) => SheetAnswer {
                number: refused.why.number() as u64,
                place: refused.place as u64,
                ..SheetAnswer::default()
            },
        }
    }
}

// What finding answered.
impl From<Result<Option<UnitRow>, Refused>> for SheetFound {
    ghost from_gives = { λ found answer. answer ≡ found_answer (says found) };

    fn from(found: Result<Option<UnitRow>, Refused>) -> SheetFound {
        match found {
            Ok(Some(row)) => SheetFound {
                number: 0,
                place: 0,
                found: 1,
                first_packet: row.first_packet,
                length: row.length,
                pts: row.pts,
                dts: row.dts,
            },
            Ok(None) => SheetFound::default(),
            Err(refused) => SheetFound {
                number: refused.why.number() as u64,
                place: refused.place as u64,
                ..SheetFound::default()
            },
        }
    }
}
