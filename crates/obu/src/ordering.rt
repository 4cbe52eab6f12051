// The kinds of OBUs, and the order of OBUs in an access unit.
ghost use Rattle.refusal.specs.Number.{says};
ghost use Rattle.std.specs.Prelude.{◌≡◌, map, Some};
ghost use Rattle.obu.specs.Order.{kind_of_number, kind_number, order_refusal};
ghost use Rattle.obu.specs.Table.{kind_meant, position_meant, LeadsTo, IsOrderTable};

use crate::header::{
    FRAME_HEADER, Header, SEQUENCE_HEADER, TEMPORAL_DELIMITER, TILE_LIST, shows_again,
};
use crate::ordering::Position::{Ended, Front, Start, Tiles, Whole};
use refusal::{Refusal, Refused};

// What the order rule tells apart: the types of OBUs, and a frame header that shows a frame again. The types that are
// reserved are one kind. The number of a kind is its type, 0 of the reserved ones, and its row in the table.
#[derive(Clone, Copy, Debug, PartialEq, Eq)]
pub enum Kind {
    Reserved = 0,
    SequenceHeader = 1,
    TemporalDelimiter = 2,
    FrameHeader = 3,
    TileGroup = 4,
    Metadata = 5,
    Frame = 6,
    RedundantFrameHeader = 7,
    TileList = 8,
    Padding = 15,
    ShownAgain = 16,
}

// The type of a tile group.
const TILE_GROUP: u8 = 4;

// The type of metadata.
const METADATA: u8 = 5;

// The type of a frame.
const FRAME: u8 = 6;

// The type of a redundant frame header.
const REDUNDANT_FRAME_HEADER: u8 = 7;

// The type of padding.
const PADDING: u8 = 15;

// The number of a frame header that shows a frame again.
const SHOWN_AGAIN: u8 = 16;

impl Kind {
    // Returns the number of the kind.
    #[tactic(auto, unfolding(crate::specs::Order::kind_of_number))]
    fn number(self) -> u8
        ensures { kind_of_number result ≡ kind_meant self }
    {
        self as u8
    }
}

// Returns the kind with this number. A number that no kind has is reserved.
impl From<u8> for Kind {
    ghost from_gives = { λ number kind. kind_meant kind ≡ kind_of_number number };

    #[tactic(auto, unfolding(crate::specs::Order::kind_of_number))]
    fn from(number: u8) -> Kind {
        match number {
            SEQUENCE_HEADER => Kind::SequenceHeader,
            TEMPORAL_DELIMITER => Kind::TemporalDelimiter,
            FRAME_HEADER => Kind::FrameHeader,
            TILE_GROUP => Kind::TileGroup,
            METADATA => Kind::Metadata,
            FRAME => Kind::Frame,
            REDUNDANT_FRAME_HEADER => Kind::RedundantFrameHeader,
            TILE_LIST => Kind::TileList,
            PADDING => Kind::Padding,
            SHOWN_AGAIN => Kind::ShownAgain,
            _ => Kind::Reserved,
        }
    }
}

// Returns the number of the kind of an OBU with this header: its type, or 16 for a frame header that shows a frame
// again.
#[tactic(auto, unfolding(lists::specs::Lists::pick))]
pub fn kind_number(header: Header) -> u8
    ensures { result ≡ kind_number header }
{
    if shows_again(header) {
        return SHOWN_AGAIN;
    }
    header.obu_type
}

// Returns the kind of an OBU with this header.
pub fn kind_of(header: Header) -> Kind
    ensures { kind_meant result ≡ kind_of_number (kind_number header) }
{
    Kind::from(kind_number(header))
}

// The positions that the OBUs so far reach. Each is a column of the table.
#[derive(Clone, Copy, Debug, PartialEq, Eq)]
enum Position {
    // There is no OBU yet.
    Start,
    // The frame may begin.
    Front,
    // There is a frame header, and the last OBU is no tile group.
    Tiles,
    // There is a frame header, and the last OBU is a tile group: the unit may end.
    Ended,
    // The frame is whole, and the unit ends.
    Whole,
}

// The rows of the table.
const ROWS: u8 = 17;

// Which OBU may follow: a row a type, 3 twice, and a column a position reached. An entry is the position that an OBU of
// this type leads to from there, or `None` if it breaks the order.
// Stays: the order rule is one table of type by request 2026-07, which wants each entry proved (docs/DECISIONS.md).
const NEXT: [[Option<Position>; 5]; 17] = [
    // Start, Front, Tiles, Ended, Whole: the position reached
    [Some(Front), Some(Front), None, None, None], // 0, reserved
    [Some(Front), Some(Front), None, None, None], // 1, sequence header
    [Some(Front), None, None, None, None], // 2, temporal delimiter
    [Some(Tiles), Some(Tiles), None, None, None], // 3, frame header
    [None, None, Some(Ended), Some(Ended), None], // 4, tile group
    [Some(Front), Some(Front), None, None, None], // 5, metadata
    [Some(Whole), Some(Whole), None, None, None], // 6, frame
    [None, None, Some(Tiles), Some(Tiles), None], // 7, redundant frame header
    [None, None, None, None, None], // 8, tile list
    [Some(Front), Some(Front), None, None, None], // 9, reserved
    [Some(Front), Some(Front), None, None, None], // 10, reserved
    [Some(Front), Some(Front), None, None, None], // 11, reserved
    [Some(Front), Some(Front), None, None, None], // 12, reserved
    [Some(Front), Some(Front), None, None, None], // 13, reserved
    [Some(Front), Some(Front), None, None, None], // 14, reserved
    [Some(Front), Some(Front), Some(Tiles), Some(Tiles), None], // 15, padding
    [Some(Whole), Some(Whole), None, None, None], // 3 with show_existing_frame, whose kind has the number 16
];

// Returns the table, each entry of which is what the order rule says.
fn order_table() -> [[Option<Position>; 5]; 17]
    ensures { IsOrderTable result }
{
    NEXT
}

// Returns the table's entry for the number of a kind at a position. A number that no kind has is reserved, as 0 is.
fn next(table: &[[Option<Position>; 5]; 17], position: Position, number: u8) -> Option<Position>
    requires { IsOrderTable table.now }
    ensures { LeadsTo (position_meant (Some position)) (kind_of_number number) (position_meant result) }
{
    if ROWS <= number {
        return table[0][position as usize];
    }
    table[number as usize][position as usize]
}

// Checks that OBUs of these kinds are in order. Returns refusal 7 at the index that breaks the order, or at the count
// if they end too soon.
pub fn order_kinds(kinds: &[Kind]) -> Result<(), Refused>
    ensures { says result ≡ order_refusal (map kind_meant kinds.now) }
{
    let table = order_table();
    let mut position = Start;
    for (i, kind) in kinds.iter().enumerate() {
        let Some(reached) = next(&table, position, kind.number()) else {
            return Err(Refusal::Order.at(i)); // at the kind's index
        };
        position = reached;
    }
    match position {
        Ended | Whole => Ok(()),
        Start | Front | Tiles => Err(Refusal::Order.at(kinds.len())),
    }
}

// Checks that OBUs with these numbers of their kinds are in order. Returns refusal 7 at the index that breaks the
// order, or at the count if they end too soon. Stays beside `order_kinds`: a caller may hand in any number.
pub fn order(numbers: &[u8]) -> Result<(), Refused>
    ensures { says result ≡ order_refusal (map kind_of_number numbers.now) }
{
    let table = order_table();
    let mut position = Start;
    for (i, number) in numbers.iter().enumerate() {
        let Some(reached) = next(&table, position, *number) else {
            return Err(Refusal::Order.at(i)); // at its own index
        };
        position = reached;
    }
    match position {
        Ended | Whole => Ok(()),
        Start | Front | Tiles => Err(Refusal::Order.at(numbers.len())),
    }
}
