// The descriptors of one loop.
ghost use Rattle.std.specs.Prelude.{◌≡◌};
ghost use Rattle.refusal.specs.Number.{says};
ghost use Rattle.descriptor.specs.Naming.{edition_says};
ghost use Rattle.pmt.specs.Parts.{with_video, with_descriptor, loop_found};

use descriptor::Edition;
use lists::byte_at;
use refusal::{Refusal, Refused};

// The tag of a video descriptor.
const VIDEO_TAG: u8 = 0x80;

// The video descriptors of a loop: the four bytes that the first one has after its tag and length, if there is one, and
// whether it is wrong or there are two.
#[derive(Clone, Copy)]
pub(crate) struct Videos {
    pub(crate) first: Option<[u8; 4]>,
    pub(crate) wrong: bool,
}

// What a loop has: the registration as its first descriptor, or as a later one; the video descriptors.
#[derive(Clone, Copy)]
pub(crate) struct Found {
    pub(crate) first: bool,
    pub(crate) later: bool,
    pub(crate) videos: Videos,
}

// Returns the video descriptors with one more descriptor.
#[tactic(auto, unfolding(crate::specs::Parts::with_video, lists::specs::Lists::pick))]
fn with_video(edition: Edition, videos: Videos, d: &[u8]) -> Videos
    ensures { result ≡ with_video (edition_says edition) videos d.now }
{
    if !edition.interprets_video() || byte_at(d, 0) != VIDEO_TAG {
        return videos;
    }
    match videos.first {
        Some(first) => Videos {
            first: Some(first),
            wrong: true,
        },
        None => Videos {
            first: Some([byte_at(d, 2), byte_at(d, 3), byte_at(d, 4), byte_at(d, 5)]),
            wrong: descriptor::wrong(d),
        },
    }
}

// Returns what a loop has with one more descriptor, which is the first or is not.
#[tactic(auto, unfolding(crate::specs::Parts::with_descriptor, lists::specs::Lists::pick))]
fn with_descriptor(edition: Edition, found: Found, first: bool, d: &[u8]) -> Found
    ensures { result ≡ with_descriptor (edition_says edition) found first d.now }
{
    let registration = descriptor::is_registration(edition, d);
    let videos = with_video(edition, found.videos, d);
    if first {
        Found {
            first: registration,
            later: found.later,
            videos,
        }
    } else {
        Found {
            first: found.first,
            later: found.later || registration,
            videos,
        }
    }
}

// Returns what the descriptors of a loop are, or refusal 26 if they do not fill it exactly.
pub(crate) fn read_loop(edition: Edition, s: &[u8]) -> Result<Found, Refused>
    ensures { says result ≡ loop_found (edition_says edition) s.now }
{
    let mut found = Found {
        first: false,
        later: false,
        videos: Videos {
            first: None,
            wrong: false,
        },
    };
    let mut at: usize = 0;
    // Stays: the length of each step stands in the descriptor; an iterator would be this loop again, used once.
    while at < s.len() {
        let size = 2 + usize::from(byte_at(s, at + 1));
        if s.len() - at < size {
            return Err(Refusal::Pmt.at(0));
        }
        let end = at + size;
        found = with_descriptor(edition, found, at == 0, &s[at..end]);
        at = end;
    }
    Ok(found)
}
