// The header of one OBU, and the refusals of one OBU.
ghost use Rattle.std.specs.Prelude.{◌≡◌, ◌≤◌};
ghost use Rattle.refusal.specs.Number.{says};
ghost use Rattle.obu.specs.Header.{forbidden_bit, type_bits, extension_bit, has_size_bit, fixed_bytes};
ghost use Rattle.obu.specs.Header.{extension_missing, size_bytes, header_with, sized_header, header_of};
ghost use Rattle.obu.specs.Header.{bytes_remaining, size_wrong, delimiter_with_content, content_missing};
ghost use Rattle.obu.specs.Header.{reduced_still, shows_again, judged};

use crate::leb128::{Leb128, read_leb128};
use lists::byte_at;
use refusal::{Refusal, Refused};

// As many bytes as an OBU is judged from: the first, an extension byte, a leb128 of 8, and the first of the content.
pub const JUDGED_BYTES: usize = 11;

// A header. `size` is the size that it tells, `content` the offset of the content, and `first_content` the first byte
// of the content, or 0 if there is no content.
#[derive(Clone, Copy)]
pub struct Header {
    // Stays: the four bits are kept as a number, since the lister and the sheet print it, that of a reserved type too.
    pub obu_type: u8,
    pub extension: bool,
    pub size: Option<Leb128>,
    pub content: usize,
    pub first_content: u8,
}

// The type of a sequence header.
pub(crate) const SEQUENCE_HEADER: u8 = 1;

// The type of a temporal delimiter.
pub(crate) const TEMPORAL_DELIMITER: u8 = 2;

// The type of a frame header.
pub(crate) const FRAME_HEADER: u8 = 3;

// The type of a tile list.
pub(crate) const TILE_LIST: u8 = 8;

// Returns the forbidden bit of a header's first byte.
fn forbidden_bit(first: u8) -> bool
    ensures { result ≡ forbidden_bit first }
{
    first / 128 % 2 == 1
}

// Returns the type, four bits of a header's first byte.
fn type_bits(first: u8) -> u8
    ensures { result ≡ type_bits first }
{
    first / 8 % 16
}

// Returns the extension bit of a header's first byte.
fn extension_bit(first: u8) -> bool
    ensures { result ≡ extension_bit first }
{
    first / 4 % 2 == 1
}

// Returns the has-size bit of a header's first byte.
fn has_size_bit(first: u8) -> bool
    ensures { result ≡ has_size_bit first }
{
    first / 2 % 2 == 1
}

// Returns how many bytes stand before the leb128: the first, and with extension set a second.
fn fixed_bytes(first: u8) -> usize
    ensures { result ≡ fixed_bytes first }
{
    if extension_bit(first) { 2 } else { 1 }
}

// Returns whether an OBU of `bytes` bytes lacks the extension byte that its first byte announces.
fn extension_missing(first: u8, bytes: usize) -> bool
    ensures { result ≡ extension_missing first bytes }
{
    extension_bit(first) && bytes == 1
}

// Returns how many bytes a size takes, 0 if no size is present.
pub fn size_bytes(size: Option<Leb128>) -> usize
    ensures { result ≡ size_bytes size }
{
    match size {
        Some(leb) => leb.width,
        None => 0,
    }
}

// Returns the header with these fields.
fn header_with(first: u8, size: Option<Leb128>, first_content: u8) -> Header
    requires { size_bytes size ≤ 8 }
    ensures { result ≡ header_with first size first_content }
{
    let content = fixed_bytes(first) + size_bytes(size);
    Header {
        obu_type: type_bits(first),
        extension: extension_bit(first),
        size,
        content,
        first_content,
    }
}

// Returns the header with the size that follows its fixed bytes, or refusal 5 if that is no leb128.
fn sized_header(first: u8, rest: &[u8]) -> Result<Header, Refused>
    ensures { says result ≡ sized_header first rest.now }
{
    if !has_size_bit(first) {
        return Ok(header_with(first, None, byte_at(rest, 0)));
    }
    let leb = read_leb128(rest).ok_or(Refusal::ObuSize.at(0))?;
    Ok(header_with(first, Some(leb), byte_at(rest, leb.width)))
}

// Returns the header of an OBU, or refusal 3, 4, or 5 for a bad leb128.
pub fn read_header(obu: &[u8]) -> Result<Header, Refused>
    ensures { says result ≡ header_of obu.now }
{
    if obu.len() == 0 {
        return Err(Refusal::EmptyObu.at(0));
    }
    let first = obu[0];
    if forbidden_bit(first) {
        return Err(Refusal::ObuHeader.at(0));
    }
    if extension_missing(first, obu.len()) {
        return Err(Refusal::ObuHeader.at(0));
    }
    let fixed = fixed_bytes(first);
    sized_header(first, &obu[fixed..])
}

// Returns how many bytes remain behind the header, in an OBU of `bytes` bytes.
fn remaining(header: Header, bytes: usize) -> usize
    ensures { result ≡ bytes_remaining header bytes }
{
    bytes.saturating_sub(header.content)
}

// Returns whether the size that the header tells is not that of the bytes that remain.
fn size_wrong(header: Header, bytes: usize) -> bool
    ensures { result ≡ size_wrong header bytes }
{
    let remain = remaining(header, bytes);
    match header.size {
        Some(leb) => leb.value != remain as u64,
        None => false,
    }
}

// Returns whether this is a temporal delimiter with content.
fn delimiter_with_content(header: Header, bytes: usize) -> bool
    ensures { result ≡ delimiter_with_content header bytes }
{
    header.obu_type == TEMPORAL_DELIMITER && 0 < remaining(header, bytes)
}

// Returns whether this is a sequence header or a frame header without content.
fn content_missing(header: Header, bytes: usize) -> bool
    ensures { result ≡ content_missing header bytes }
{
    (header.obu_type == SEQUENCE_HEADER || header.obu_type == FRAME_HEADER)
        && remaining(header, bytes) == 0
}

// Returns whether this is a sequence header with reduced_still_picture_header, the fifth bit of its content.
fn reduced_still(header: Header) -> bool
    ensures { result ≡ reduced_still header }
{
    header.obu_type == SEQUENCE_HEADER && header.first_content / 8 % 2 == 1
}

// Returns whether this is a frame header with show_existing_frame, the first bit of its content.
pub(crate) fn shows_again(header: Header) -> bool
    ensures { result ≡ shows_again header }
{
    header.obu_type == FRAME_HEADER && header.first_content / 128 % 2 == 1
}

// Returns the header of an OBU of `bytes` bytes that begins with `prefix`, or refusal 3, 4, 5, 6 or 42. JUDGED_BYTES
// bytes of it, or all if there are fewer, are enough.
pub fn judge(prefix: &[u8], bytes: usize) -> Result<Header, Refused>
    ensures { says result ≡ judged prefix.now bytes }
{
    let header = read_header(prefix)?;
    if size_wrong(header, bytes) {
        return Err(Refusal::ObuSize.at(0));
    }
    if delimiter_with_content(header, bytes) {
        return Err(Refusal::ObuSize.at(0));
    }
    if header.obu_type == TILE_LIST {
        return Err(Refusal::TileList.at(0));
    }
    if content_missing(header, bytes) {
        return Err(Refusal::ObuContent.at(0));
    }
    if reduced_still(header) {
        return Err(Refusal::ObuContent.at(0));
    }
    Ok(header)
}
