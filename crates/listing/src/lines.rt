// The lines of the text.
ghost use Rattle.std.specs.Prelude.{◌≡◌, ◌+◌, ◌≤◌, ◌++◌, length};
ghost use Rattle.refusal.specs.Number.{number_of};
ghost use Rattle.listing.specs.Listing.{refusal_line, header_line, obu_line, payload_line, most_text};
ghost use Rattle.listing.specs.Parts.{line_room};

use crate::text::Text;
use obu::size_bytes;
use refusal::Refused;
use tsobu::judge_payload;

// Puts the line of a refusal: its number and place.
// Stays: that a line has room is asked of each function, since each line takes of the room that the text has left.
pub(crate) fn put_refusal(text: &mut Text, refused: Refused)
    requires { length text.old + line_room ≤ most_text }
    ensures puts { text.new ≡ text.old ++ refusal_line (number_of refused.why) refused.place }
    ensures upper_bound { length text.new ≤ length text.old + line_room }
{
    text.named(b"refused ", refused.why.number() as usize);
    text.named(b" ", refused.place);
    text.word(b"\n");
}

// Puts the header.
pub(crate) fn put_header(text: &mut Text, obus: usize, removed: usize)
    requires { length text.old + line_room ≤ most_text }
    ensures puts { text.new ≡ text.old ++ header_line obus removed }
    ensures upper_bound { length text.new ≤ length text.old + line_room }
{
    text.named(b"obus ", obus);
    text.named(b" removed ", removed);
    text.word(b"\n");
}

// Puts the line of one OBU.
fn put_obu(
    text: &mut Text,
    index: usize,
    obu_type: usize,
    size: usize,
    removed: usize,
    width: usize,
)
    requires { length text.old + line_room ≤ most_text }
    ensures puts { text.new ≡ text.old ++ obu_line index obu_type size removed width }
    ensures upper_bound { length text.new ≤ length text.old + line_room }
{
    text.decimal(index);
    text.named(b" type ", obu_type);
    text.named(b" size ", size);
    text.named(b" removed ", removed);
    text.named(b" width ", width);
    text.word(b"\n");
}

// Puts the line of the OBU that a payload carries; none if the payload is refused.
pub(crate) fn put_payload(text: &mut Text, index: usize, payload: &[u8])
    requires { length text.old + line_room ≤ most_text }
    ensures puts { text.new ≡ text.old ++ payload_line index payload.now }
    ensures upper_bound { length text.new ≤ length text.old + line_room }
{
    let Ok(figures) = judge_payload(payload) else {
        return;
    };
    let removed = figures.dropped;
    put_obu(
        text,
        index,
        figures.header.obu_type as usize,
        payload.len() - removed,
        removed,
        size_bytes(figures.header.size),
    );
}
