// The payloads of a string, one after the other.
ghost use Rattle.std.specs.Prelude.{◌≡◌, eqb, length};
ghost use Rattle.std.specs.Iterator.{YieldsFirstRef, item_count};
ghost use Rattle.tsobu.specs.StartCodes.{split, payloads};
ghost use Rattle.tsobu.specs.Payloads.{payloads_behind, payloads_left};

use crate::start_codes::find;

// Returns what stands before the first start code of a string, and what stands behind it, or `None` if there is none.
fn split(s: &[u8]) -> (&[u8], Option<&[u8]>)
    ensures before { result.0.now ≡ (split s.now).before }
    ensures behind { payloads_behind result.1 ≡ payloads s.now }
{
    let (before, rest) = s.split_at(find(s, 0));
    (before, rest.get(3..))
}

// An iterator over the payloads of a string: what stands behind the next start code, or `None` if no payload is left.
#[derive(Drop)]
pub struct Payloads<'a> {
    behind: Option<&'a [u8]>,
}

impl<'a> Payloads<'a> {
    // Returns an iterator over the payloads of any string.
    pub fn of(s: &'a [u8]) -> Payloads<'a>
        ensures { payloads_left result ≡ payloads s.now }
    {
        let (_, behind) = split(s);
        Payloads { behind }
    }

    // Returns whether no payload is left. Unlike `next`, it does not search for the end of a payload.
    pub fn is_empty(&self) -> bool
        ensures { result ≡ eqb (length (payloads_left self.now)) 0 }
    {
        self.behind.is_none()
    }
}

impl<'a> Iterator for Payloads<'a> {
    type Item = &'a [u8];

    ghost next_gives = { YieldsFirstRef payloads_left };

    ghost remaining = { item_count payloads_left };

    fn next(&mut self) -> Option<&'a [u8]> {
        let (payload, behind) = split(self.behind?);
        self.behind = behind;
        Some(payload)
    }
}
