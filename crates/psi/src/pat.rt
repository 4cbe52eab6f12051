// The program association table.
ghost use Rattle.refusal.specs.Number.{says};
ghost use Rattle.std.specs.Prelude.{◌≡◌};
ghost use Rattle.lists.specs.Bytes.{byte};
ghost use Rattle.lists.specs.Lists.{those};
ghost use Rattle.psi.specs.Pat.{entry_of, programs, not_zero, map_pid_in_range, one_program, read_pat};

use crate::common::common_wrong;
use refusal::{Refusal, Refused};

// The number of an entry that names no program.
const NETWORK: u16 = 0;
// The first PID that a program's map can have.
const FIRST_MAP_PID: u16 = 0x0010;
// The last PID that a program's map can have.
const LAST_MAP_PID: u16 = 0x1FFE;

// An entry: a program and the PID of its map.
#[derive(Clone, Copy)]
pub struct Program {
    pub number: u16,
    pub map_pid: u16,
}

// Returns the entry of these four bytes.
// Stays: an entry has four bytes, and `as_chunks` gives them as this type.
fn entry(bytes: [u8; 4]) -> Program
    ensures { result ≡ entry_of (byte bytes 0) (byte bytes 1) (byte bytes 2) (byte bytes 3) }
{
    let [a, b, c, d] = bytes;
    Program {
        number: u16::from_be_bytes([a, b]),
        map_pid: u16::from_be_bytes([c % 32, d]),
    }
}

// Returns the program if its map PID is 0x0010 to 0x1FFE, or refusal 25.
fn in_range(program: Program) -> Result<Program, Refused>
    ensures { says result ≡ map_pid_in_range program }
{
    if (FIRST_MAP_PID..=LAST_MAP_PID).contains(&program.map_pid) {
        Ok(program)
    } else {
        Err(Refusal::Pat.at(0))
    }
}

// Returns the one program not 0 among these entries. Returns refusal 25 if there is none, or more than one.
fn one_program(entries: &[u8]) -> Result<Program, Refused>
    ensures { says result ≡ one_program (those not_zero (programs entries.now)) }
{
    let (chunks, _) = entries.as_chunks::<4>();
    let mut found = None;
    for chunk in chunks {
        let next = entry(*chunk);
        if next.number != NETWORK {
            if found.is_some() {
                return Err(Refusal::Pat.at(0));
            }
            found = Some(next);
        }
    }
    match found {
        Some(program) => in_range(program),
        None => Err(Refusal::Pat.at(0)),
    }
}

// Returns the program that a PAT section names, or refusal 25.
#[tactic(auto, using(crate::proofs::Fields::long_enough))]
pub fn read_pat(section: &[u8]) -> Result<Program, Refused>
    ensures { says result ≡ read_pat section.now }
{
    if common_wrong(section, 0, 12) {
        return Err(Refusal::Pat.at(0));
    }
    let end = section.len() - 4;
    if (end - 8) % 4 != 0 {
        return Err(Refusal::Pat.at(0));
    }
    one_program(&section[8..end])
}
