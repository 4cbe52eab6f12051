// Timing, decoder model and operating points (AV1 5.5.1, 5.5.3 to 5.5.5).
ghost use Rattle.lists.specs.Lists.{pick};
ghost use Rattle.sequence.specs.Bits.{times};
ghost use Rattle.sequence.specs.Header.{timing_info, decoder_model_info, timed_model, delay_length};
ghost use Rattle.sequence.specs.Header.{operating_parameters, decoder_model, display_delay};
ghost use Rattle.sequence.specs.Header.{operating_point, operating_points, reduced_point};
ghost use Rattle.sequence.specs.Parts.{Reads};

use crate::reader::BitReader;

// seq_level_idx and seq_tier of an operating point.
#[derive(Clone, Copy)]
pub(crate) struct Point {
    pub level: u8,
    pub tier: u8,
}

// Reads timing_info (5.5.3).
#[tactic(auto, using(crate::proofs::Steps::reads), unfolding(crate::specs::Header::timing_info))]
fn timing_info(reader: &mut BitReader)
    ensures { Reads reader.old timing_info tt reader.new }
{
    reader.skip(32); // num_units_in_display_tick
    reader.skip(32); // time_scale
    if reader.flag() {
        reader.uvlc();
    }
}

// Reads decoder_model_info (5.5.4). Returns how many bits a buffer delay has.
#[tactic(auto, using(crate::proofs::Steps::reads), unfolding(crate::specs::Header::decoder_model_info))]
fn decoder_model_info(reader: &mut BitReader) -> u8
    ensures { Reads reader.old decoder_model_info result reader.new }
{
    let minus_one = reader.number(5); // buffer_delay_length_minus_1
    reader.skip(32); // num_units_in_decoding_tick
    reader.skip(5); // buffer_removal_time_length_minus_1
    reader.skip(5); // frame_presentation_time_length_minus_1
    minus_one + 1
}

// Reads the two. Returns how many bits a buffer delay has, 0 without a decoder model.
#[tactic(auto, using(crate::proofs::Steps::reads), unfolding(crate::specs::Header::timed_model))]
fn timed_model(reader: &mut BitReader) -> u8
    ensures { Reads reader.old timed_model result reader.new }
{
    timing_info(reader);
    if reader.flag() {
        decoder_model_info(reader)
    } else {
        0
    }
}

// Reads the two if they are present. Returns how many bits a buffer delay has, 0 without a decoder model.
#[tactic(auto, using(crate::proofs::Steps::reads), unfolding(crate::specs::Header::delay_length))]
fn delay_length(reader: &mut BitReader) -> u8
    ensures { Reads reader.old delay_length result reader.new }
{
    if reader.flag() {
        timed_model(reader)
    } else {
        0
    }
}

// Reads operating_parameters_info (5.5.5).
#[tactic(auto, using(crate::proofs::Steps::reads), unfolding(crate::specs::Header::operating_parameters))]
fn operating_parameters(reader: &mut BitReader, length: u8)
    ensures { Reads reader.old (operating_parameters length) tt reader.new }
{
    reader.skip(length); // decoder_buffer_delay
    reader.skip(length); // encoder_buffer_delay
    reader.skip(1); // low_delay_mode_flag
}

// Reads the decoder model of an operating point, if it is present.
#[tactic(auto, using(crate::proofs::Steps::reads), unfolding(crate::specs::Header::decoder_model))]
fn decoder_model(reader: &mut BitReader, length: u8)
    ensures { Reads reader.old (decoder_model length) tt reader.new }
{
    if reader.flag() {
        operating_parameters(reader, length);
    }
}

// Reads the display delay of an operating point, if it is present.
#[tactic(auto, using(crate::proofs::Steps::reads), unfolding(crate::specs::Header::display_delay))]
fn display_delay(reader: &mut BitReader)
    ensures { Reads reader.old display_delay tt reader.new }
{
    let present = reader.flag();
    reader.skip_if(present, 4);
}

// Reads an operating point.
#[tactic(auto, using(crate::proofs::Steps::reads), unfolding(crate::specs::Header::operating_point))]
fn operating_point(reader: &mut BitReader, length: u8, delay_present: bool) -> Point
    ensures { Reads reader.old (operating_point length delay_present) result reader.new }
{
    reader.skip(12); // operating_point_idc
    let level = reader.number(5);
    let tier = reader.number_if(7 < level, 1);
    if 0 < length {
        decoder_model(reader, length);
    }
    if delay_present {
        display_delay(reader);
    }
    Point { level, tier }
}

// Reads so many operating points, which are not looked at.
fn more_points(reader: &mut BitReader, count: u8, length: u8, delay_present: bool)
    ensures { Reads reader.old (times count (operating_point length delay_present)) tt reader.new }
{
    for _ in 0..count {
        operating_point(reader, length, delay_present);
    }
}

// Reads all operating points. Returns the first.
#[tactic(auto, using(crate::proofs::Steps::reads), unfolding(crate::specs::Header::operating_points))]
fn operating_points(reader: &mut BitReader) -> Point
    ensures { Reads reader.old operating_points result reader.new }
{
    let length = delay_length(reader);
    let delay_present = reader.flag();
    let minus_one = reader.number(5); // operating_points_cnt_minus_1
    let first = operating_point(reader, length, delay_present);
    more_points(reader, minus_one, length, delay_present);
    first
}

// Reads the operating point of a reduced header.
#[tactic(auto, using(crate::proofs::Steps::reads), unfolding(crate::specs::Header::reduced_point))]
fn reduced_point(reader: &mut BitReader) -> Point
    ensures { Reads reader.old reduced_point result reader.new }
{
    Point {
        level: reader.number(5),
        tier: 0,
    }
}

// Reads the operating points of a header that is reduced or not. Returns the first.
#[tactic(auto, using(crate::proofs::Steps::reads))]
pub(crate) fn point_of(reduced: bool, reader: &mut BitReader) -> Point
    ensures { Reads reader.old (pick reduced reduced_point operating_points) result reader.new }
{
    if reduced {
        reduced_point(reader)
    } else {
        operating_points(reader)
    }
}
