//! Lines, read from the words behind their first.
ghost use Rattle.std.specs.Prelude.{◌≡◌};
ghost use Rattle.value_words.specs.Answers.{GivesWord};
ghost use Rattle.record_lines.specs.Reading.{said_line, HUp, HDown, HRing, HIn, HBase, HPut, HHeard, HCast, HAsked, HTold, HNoted, HRefused, HShow};

use crate::entries::entry_of_words;
use crate::notes::note_words;
use crate::pieces::Pieces;
use crate::refusals::{fault_words, why_words};
use crate::statuses::status_words;
use record_lines::{Ballot, BaseLine, ClientName, Line, OpenPhase, What};
use rsct_packet::{List, Member, Name, ProtoId, ProviderId, Providers, RingId, Text, ViewId};
use std::alloc::Global;
use value_words::WordFault;
use word_laws::Kind;

/// A node starts.
#[tactic(auto, unfolding(record_lines::specs::Reading::said_line, value_words::specs::Answers::bind_opens))]
pub fn up_line(words: &mut Pieces<'_>) -> Result<Line, WordFault>
    ensures { GivesWord result (said_line HUp words.old) }
{
    let node = words.next::<u8>()?;
    let inc = words.next::<u32>()?;
    words.ended(Line::Up { node, inc })
}

/// A node ends.
#[tactic(auto, unfolding(record_lines::specs::Reading::said_line, value_words::specs::Answers::bind_opens))]
pub fn down_line(words: &mut Pieces<'_>) -> Result<Line, WordFault>
    ensures { GivesWord result (said_line HDown words.old) }
{
    let node = words.next::<u8>()?;
    words.ended(Line::Down { node })
}

/// A ring is set at a node.
#[tactic(auto, unfolding(record_lines::specs::Reading::said_line, value_words::specs::Answers::bind_opens))]
pub fn ring_line(alloc: Global, words: &mut Pieces<'_>) -> Result<Line, WordFault>
    ensures { GivesWord result (said_line HRing words.old) }
{
    let node = words.next::<u8>()?;
    let network = words.network()?;
    let ring = words.next::<RingId>()?;
    let members = words.next_owned::<List<u8>>(alloc)?;
    let neighbour = words.next::<u8>()?;
    words.ended(Line::Ring {
        node,
        network,
        ring,
        members,
        neighbour,
    })
}

/// A node enters a view.
#[tactic(auto, unfolding(record_lines::specs::Reading::said_line, value_words::specs::Answers::bind_opens))]
pub fn in_line(alloc: Global, words: &mut Pieces<'_>) -> Result<Line, WordFault>
    ensures { GivesWord result (said_line HIn words.old) }
{
    let node = words.next::<u8>()?;
    let view = words.next::<ViewId>()?;
    let members = words.next_owned::<List<Member>>(alloc)?;
    words.ended(Line::In {
        node,
        view,
        members,
    })
}

/// What a group begins with in a view.
#[tactic(auto, unfolding(record_lines::specs::Reading::said_line, value_words::specs::Answers::bind_opens))]
pub fn base_line(alloc: Global, words: &mut Pieces<'_>) -> Result<Line, WordFault>
    ensures { GivesWord result (said_line HBase words.old) }
{
    let node = words.next::<u8>()?;
    let view = words.next::<ViewId>()?;
    let group = words.next_owned::<Name>(alloc)?;
    let old = words.next::<ViewId>()?;
    let len = words.next::<u32>()?;
    let members = words.next_owned::<Providers>(alloc)?;
    let value = words.next_owned::<Text>(alloc)?;
    let failed = words.next_owned::<Providers>(alloc)?;
    let running = words.next::<Option<OpenPhase>>()?;
    words.ended(Line::Base {
        node,
        view,
        group,
        base: BaseLine {
            old,
            len,
            members,
            value,
            failed,
            running,
        },
    })
}

/// An entry is put into a list.
#[tactic(auto, unfolding(record_lines::specs::Reading::said_line, value_words::specs::Answers::bind_opens))]
pub fn put_line(alloc: Global, words: &mut Pieces<'_>) -> Result<Line, WordFault>
    ensures { GivesWord result (said_line HPut words.old) }
{
    let node = words.next::<u8>()?;
    let view = words.next::<ViewId>()?;
    let group = words.next_owned::<Name>(alloc)?;
    let place = words.next::<u32>()?;
    let entry = entry_of_words(alloc, words)?;
    Ok(Line::Put {
        node,
        view,
        group,
        place,
        entry,
    })
}

/// A provider hears of an entry.
#[tactic(auto, unfolding(record_lines::specs::Reading::said_line, value_words::specs::Answers::bind_opens))]
pub fn heard_line(alloc: Global, words: &mut Pieces<'_>) -> Result<Line, WordFault>
    ensures { GivesWord result (said_line HHeard words.old) }
{
    let provider = words.next::<ProviderId>()?;
    let view = words.next::<ViewId>()?;
    let group = words.next_owned::<Name>(alloc)?;
    let place = words.next::<u32>()?;
    let what = words.next::<What>()?;
    let members = words.next_owned::<Providers>(alloc)?;
    let value = words.next_owned::<Text>(alloc)?;
    words.ended(Line::Heard {
        provider,
        view,
        group,
        place,
        what,
        members,
        value,
    })
}

/// A provider casts its vote.
#[tactic(auto, unfolding(record_lines::specs::Reading::said_line, value_words::specs::Answers::bind_opens))]
pub fn cast_line(alloc: Global, words: &mut Pieces<'_>) -> Result<Line, WordFault>
    ensures { GivesWord result (said_line HCast words.old) }
{
    let provider = words.next::<ProviderId>()?;
    let proto = words.next::<ProtoId>()?;
    let phase = words.next::<u16>()?;
    let ballot = words.next_owned::<Ballot>(alloc)?;
    words.ended(Line::Cast {
        provider,
        proto,
        phase,
        vote: ballot.vote,
        value: ballot.value,
    })
}

/// A client asks.
#[tactic(auto, unfolding(record_lines::specs::Reading::said_line, value_words::specs::Answers::bind_opens))]
pub fn asked_line(alloc: Global, words: &mut Pieces<'_>) -> Result<Line, WordFault>
    ensures { GivesWord result (said_line HAsked words.old) }
{
    let provider = words.next::<ProviderId>()?;
    let request = words.next::<u32>()?;
    let group = words.next_owned::<Name>(alloc)?;
    let kind = words.next::<Kind>()?;
    words.ended(Line::Asked {
        provider,
        request,
        group,
        kind,
    })
}

/// A client is told why its request is refused.
#[tactic(auto, unfolding(record_lines::specs::Reading::said_line, value_words::specs::Answers::bind_opens))]
pub fn told_line(words: &mut Pieces<'_>) -> Result<Line, WordFault>
    ensures { GivesWord result (said_line HTold words.old) }
{
    let provider = words.next::<ProviderId>()?;
    let request = words.next::<u32>()?;
    let why = why_words(words).ok_or(WordFault::BadWord)?;
    Ok(Line::Told {
        provider,
        request,
        why,
    })
}

/// A subscriber is told of a group or of the hosts.
#[tactic(auto, unfolding(record_lines::specs::Reading::said_line, value_words::specs::Answers::bind_opens))]
pub fn noted_line(alloc: Global, words: &mut Pieces<'_>) -> Result<Line, WordFault>
    ensures { GivesWord result (said_line HNoted words.old) }
{
    let client = words.next_owned::<ClientName>(alloc)?;
    let view = words.next::<ViewId>()?;
    let (place, note) = note_words(alloc, words)?;
    Ok(Line::Noted {
        node: client.node,
        client: client.name,
        view,
        place,
        note,
    })
}

/// A call is refused.
#[tactic(auto, unfolding(record_lines::specs::Reading::said_line, value_words::specs::Answers::bind_opens))]
pub fn refused_line(alloc: Global, words: &mut Pieces<'_>) -> Result<Line, WordFault>
    ensures { GivesWord result (said_line HRefused words.old) }
{
    let client = words.next_owned::<ClientName>(alloc)?;
    let fault = fault_words(words).ok_or(WordFault::BadWord)?;
    Ok(Line::Refused {
        node: client.node,
        client: client.name,
        fault,
    })
}

/// A line of a node's status.
#[tactic(auto, unfolding(record_lines::specs::Reading::said_line, value_words::specs::Answers::bind_opens))]
pub fn show_line(alloc: Global, words: &mut Pieces<'_>) -> Result<Line, WordFault>
    ensures { GivesWord result (said_line HShow words.old) }
{
    let node = words.next::<u8>()?;
    let status = status_words(alloc, words)?;
    Ok(Line::Show { node, status })
}
