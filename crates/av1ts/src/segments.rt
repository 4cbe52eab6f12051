// Checking a segment and extracting its access units.
ghost use Rattle.segment_rules.specs.Check.{outputs_of};
ghost use Rattle.av1ts.specs.Segments.{ChecksSegment};

use answers::SegmentAnswer;

// The check in the edition of this number: 0 current, 1 draft.
#[unsafe(no_mangle)]
pub extern "C" fn av1ts_check_segment_edition(
    edition: u64,
    segment: &[u8],
    out: &mut [u8],
    lengths: &mut [usize],
    times: &mut [u64],
) -> SegmentAnswer
    ensures { ChecksSegment edition segment.now
        (outputs_of out.old lengths.old times.old) result
        (outputs_of out.new lengths.new times.new) }
{
    segment::check_compared(edition, segment, out, lengths, times).into()
}

// The check in edition 0, the current one.
#[unsafe(no_mangle)]
pub extern "C" fn av1ts_check_segment(
    segment: &[u8],
    out: &mut [u8],
    lengths: &mut [usize],
    times: &mut [u64],
) -> SegmentAnswer
    ensures { ChecksSegment 0 segment.now
        (outputs_of out.old lengths.old times.old) result
        (outputs_of out.new lengths.new times.new) }
{
    av1ts_check_segment_edition(0, segment, out, lengths, times)
}
