// What PAT and PMT have in common.
ghost use Rattle.std.specs.Prelude.{◌≡◌, ◌-◌};
ghost use Rattle.lists.specs.Bytes.{bit};
ghost use Rattle.psi.specs.Section.{crc32, fields_wrong, crc_wrong, common_wrong};

use crc::crc32;
use lists::byte_at;

// Returns the highest bit of a byte.
fn highest_bit(byte: u8) -> bool
    ensures { result ≡ bit 7 byte }
{
    byte / 128 % 2 == 1
}

// Returns the lowest bit of a byte.
fn lowest_bit(byte: u8) -> bool
    ensures { result ≡ bit 0 byte }
{
    byte % 2 == 1
}

// Returns whether one of the fixed fields is wrong, in a section that is to have this table_id.
#[tactic(auto, unfolding(crate::specs::Section::fields_wrong))]
fn fields_wrong(section: &[u8], table: u8) -> bool
    ensures { result ≡ fields_wrong table section.now }
{
    byte_at(section, 0) != table
        || !highest_bit(byte_at(section, 1))
        || !lowest_bit(byte_at(section, 5))
        || byte_at(section, 6) != 0
        || byte_at(section, 7) != 0
}

// Returns the offset of the CRC in a section of so many bytes, 0 if it has fewer than four.
fn crc_place(length: usize) -> usize
    ensures { result ≡ length - 4 }
{
    length.saturating_sub(4)
}

// Returns the CRC that a section carries.
fn carried_crc(section: &[u8]) -> u32
    ensures { result ≡ crc32 section.now }
{
    let at = crc_place(section.len());
    u32::from_be_bytes([
        byte_at(section, at),
        byte_at(section, at + 1),
        byte_at(section, at + 2),
        byte_at(section, at + 3),
    ])
}

// Returns whether the CRC that a section carries is not that of the bytes before it.
#[tactic(auto, unfolding(crate::specs::Section::crc_wrong))]
fn crc_wrong(section: &[u8]) -> bool
    ensures { result ≡ crc_wrong section.now }
{
    let at = crc_place(section.len());
    crc32(&section[..at]) != carried_crc(section)
}

// Returns whether a section has fewer than `least` bytes, or one of its fixed fields or its CRC is wrong.
#[tactic(auto, unfolding(crate::specs::Section::common_wrong))]
pub fn common_wrong(section: &[u8], table: u8, least: usize) -> bool
    ensures { result ≡ common_wrong table least section.now }
{
    section.len() < least || fields_wrong(section, table) || crc_wrong(section)
}
