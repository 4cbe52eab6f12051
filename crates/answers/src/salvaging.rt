// Salvaging a damaged unit.
ghost use Rattle.std.specs.Prelude.{◌≡◌};
ghost use Rattle.refusal.specs.Number.{says};
ghost use Rattle.answers.specs.Salvaging.{salvage_answer};

use refusal::Refused;
use salvage::Figures;

// bytes: the bytes written; tsobus: those of the unit, and how many were kept; leading: the bytes dropped before the
// first start code; accepted 1: reading accepts what was written.
#[repr(C)]
#[derive(Default, Drop)]
pub struct SalvageAnswer {
    pub number: u64,
    pub place: u64,
    pub bytes: u64,
    pub tsobus: u64,
    pub kept: u64,
    pub leading: u64,
    pub accepted: u64,
}

impl From<Result<Figures, Refused>> for SalvageAnswer {
    ghost from_gives = { λ salvaged answer. answer ≡ salvage_answer (says salvaged) };

    fn from(salvaged: Result<Figures, Refused>) -> SalvageAnswer {
        match salvaged {
            Ok(figures) => SalvageAnswer {
                number: 0,
                place: 0,
                bytes: figures.bytes as u64,
                tsobus: figures.tsobus as u64,
                kept: figures.kept as u64,
                leading: figures.leading as u64,
                accepted: figures.accepted as u64,
            },
            Err(refused) => SalvageAnswer {
                number: refused.why.number() as u64,
                place: refused.place as u64,
                ..SalvageAnswer::default()
            },
        }
    }
}
