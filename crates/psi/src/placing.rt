// How a section lies in its packet's payload: the pointer, the section, the fill.
ghost use Rattle.std.specs.Prelude.{◌≡◌, eqb};
ghost use Rattle.lists.specs.Lists.{all};
ghost use Rattle.psi.specs.Section.{section_size, section_of, found_in};

use lists::{byte_at, part, rest};

// Returns the size of the section that begins here: its first three bytes, and what its section_length counts.
fn section_size(s: &[u8]) -> usize
    ensures { result ≡ section_size s.now }
{
    3 + usize::from(u16::from_be_bytes([byte_at(s, 1) % 16, byte_at(s, 2)]))
}

// Returns whether all of these bytes are fill.
fn filled(rest: &[u8]) -> bool
    ensures { result ≡ all (eqb 0xFF) rest.now }
{
    rest.iter().all(|byte| *byte == 0xFF)
}

// Returns the size of the section, from table_id to the CRC, in the payload of a packet with this payload start, or
// None if it is misplaced.
#[tactic(auto, unfolding(crate::specs::Section::found_in, crate::specs::Section::misplaced, lists::specs::Lists::pick))]
pub fn find_section(payload: &[u8], start: bool) -> Option<usize>
    ensures { result ≡ found_in start payload.now }
{
    let (pointer, section) = payload.split_first()?;
    let size = section_size(section);
    let fill = section.get(size..)?;
    (start && *pointer == 0 && filled(fill)).then_some(size)
}

// Returns the section's bytes, from table_id to the CRC, in the payload of a packet in which it lies as it should.
pub fn section_of(payload: &[u8]) -> &[u8]
    ensures { result.now ≡ section_of payload.now }
{
    part(payload, 1, section_size(rest(payload, 1)))
}
