// The packets in their five classes.
ghost use Rattle.std.specs.Prelude.{◌≡◌};
ghost use Rattle.segment_rules.specs.State.{none_yet, counting};
ghost use Rattle.tables.specs.Tables.{kind_says};
ghost use Rattle.segment_run.specs.Parts.{CountsUpTo, totals_went};

use crate::going::Went;
use segment_rules::Totals;
use tables::Kind;

// Returns the totals before the first packet.
pub(crate) fn none_yet() -> Totals
    ensures { result ≡ none_yet }
{
    Totals {
        null: 0,
        section: 0,
        av1: 0,
        other_listed: 0,
        unlisted: 0,
    }
}

// Returns the totals with one more packet of this kind.
#[tactic(auto, unfolding(segment_rules::specs::State::counting))]
pub(crate) fn count_packet(kind: Kind, totals: Totals) -> Totals
    requires { CountsUpTo 1 totals }
    ensures { result ≡ counting (kind_says kind) totals }
{
    let mut next = totals;
    match kind {
        Kind::Null => next.null += 1,
        Kind::Pat => next.section += 1,
        Kind::Map => next.section += 1,
        Kind::Av1(_) => next.av1 += 1,
        Kind::Listed(_) => next.other_listed += 1,
        Kind::Unlisted => next.unlisted += 1,
    }
    next
}

// Returns the totals with the packets that went on.
#[tactic(auto, unfolding(lists::specs::Lists::pick))]
pub(crate) fn count_went(went: Went, totals: Totals) -> Totals
    requires { CountsUpTo went.packets totals }
    ensures { result ≡ totals_went totals went }
{
    let mut next = totals;
    if went.av1 {
        next.av1 += went.packets;
    } else {
        next.other_listed += went.packets;
    }
    next
}
