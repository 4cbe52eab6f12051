// Frame sizes and tools (AV1 5.5.1).
ghost use Rattle.sequence.specs.Header.{frame_size, frame_ids, frames_and_tools};
ghost use Rattle.sequence.specs.Header.{integer_mv, order_tools, screen_tools, inter_tools};
ghost use Rattle.sequence.specs.Parts.{Reads};

use crate::reader::BitReader;

// Reads the largest frame size.
#[tactic(auto, using(crate::proofs::Steps::reads), unfolding(crate::specs::Header::frame_size))]
fn frame_size(reader: &mut BitReader)
    ensures { Reads reader.old frame_size tt reader.new }
{
    let width = reader.number(4); // frame_width_bits_minus_1
    let height = reader.number(4); // frame_height_bits_minus_1
    reader.skip(width + 1); // max_frame_width_minus_1
    reader.skip(height + 1); // max_frame_height_minus_1
}

// Reads the lengths of frame ids, if they are present.
#[tactic(auto, using(crate::proofs::Steps::reads), unfolding(crate::specs::Header::frame_ids))]
fn frame_ids(reader: &mut BitReader)
    ensures { Reads reader.old frame_ids tt reader.new }
{
    if reader.flag() {
        reader.skip(4); // delta_frame_id_length_minus_2
        reader.skip(3); // additional_frame_id_length_minus_1
    }
}

// Reads seq_choose_integer_mv and seq_force_integer_mv.
#[tactic(auto, using(crate::proofs::Steps::reads), unfolding(crate::specs::Header::integer_mv))]
fn integer_mv(reader: &mut BitReader)
    ensures { Reads reader.old integer_mv tt reader.new }
{
    let choose = reader.flag();
    reader.skip_if(!choose, 1);
}

// Reads the tools of the order hint.
#[tactic(auto, using(crate::proofs::Steps::reads), unfolding(crate::specs::Header::order_tools))]
fn order_tools(reader: &mut BitReader)
    ensures { Reads reader.old order_tools tt reader.new }
{
    reader.skip(1); // enable_jnt_comp
    reader.skip(1); // enable_ref_frame_mvs
}

// Reads seq_choose_screen_content_tools and seq_force_screen_content_tools. Returns the latter, which is 2
// (SELECT_SCREEN_CONTENT_TOOLS) if it is not coded.
#[tactic(auto, using(crate::proofs::Steps::reads), unfolding(crate::specs::Header::screen_tools))]
fn screen_tools(reader: &mut BitReader) -> u8
    ensures { Reads reader.old screen_tools result reader.new }
{
    if reader.flag() { 2 } else { reader.number(1) }
}

// Reads the tools of inter frames.
#[tactic(auto, using(crate::proofs::Steps::reads), unfolding(crate::specs::Header::inter_tools))]
fn inter_tools(reader: &mut BitReader)
    ensures { Reads reader.old inter_tools tt reader.new }
{
    reader.skip(1); // enable_interintra_compound
    reader.skip(1); // enable_masked_compound
    reader.skip(1); // enable_warped_motion
    reader.skip(1); // enable_dual_filter
    let hint = reader.flag(); // enable_order_hint
    if hint {
        order_tools(reader);
    }
    let tools = screen_tools(reader);
    if 0 < tools {
        integer_mv(reader);
    }
    reader.skip_if(hint, 3); // order_hint_bits_minus_1
}

// Reads from the frame size to the tools, of a header that is reduced or not.
#[tactic(auto, using(crate::proofs::Steps::reads), unfolding(crate::specs::Header::frames_and_tools))]
pub(crate) fn frames_and_tools(reduced: bool, reader: &mut BitReader)
    ensures { Reads reader.old (frames_and_tools reduced) tt reader.new }
{
    frame_size(reader);
    if !reduced {
        frame_ids(reader);
    }
    reader.skip(1); // use_128x128_superblock
    reader.skip(1); // enable_filter_intra
    reader.skip(1); // enable_intra_edge_filter
    if !reduced {
        inter_tools(reader);
    }
    reader.skip(1); // enable_superres
    reader.skip(1); // enable_cdef
    reader.skip(1); // enable_restoration
}
