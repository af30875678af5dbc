//! Lines of a node's status.
ghost use Rattle.std.specs.Prelude.{◌≡◌, IfOk, IfErr, Some};
ghost use Rattle.value_words.specs.Answers.{FailsWord, GivesWord};
ghost use Rattle.value_words.specs.Escapes.{text_of};
ghost use Rattle.record_lines.specs.Reading.{kept_text, labelled, next, said_status, status_read, SRing, SView, SGroup, SVote};

use crate::pieces::Pieces;
use crate::values::escaped_text;
use record_lines::Status;
use rsct_packet::{List, Member, Name, ProtoId, Providers, RingId, Text, ViewId};
use std::alloc::Global;
use value_words::{WordFault, is_word};
use word_laws::Kind;

/// A ring of the node.
#[tactic(auto, unfolding(record_lines::specs::Reading::said_status, value_words::specs::Answers::bind_opens))]
fn ring_status(alloc: Global, words: &mut Pieces<'_>) -> Result<Status, WordFault>
    ensures { GivesWord result (said_status SRing words.old) }
{
    let network = words.network()?;
    let ring = words.next::<RingId>()?;
    let members = words.labelled_owned::<List<u8>>(alloc)?;
    let neighbour = words.labelled::<u8>()?;
    words.ended(Status::Ring {
        network,
        ring,
        members,
        neighbour,
    })
}

/// The view of the node. What is said of the coordinator is in the view, too.
#[tactic(auto, unfolding(record_lines::specs::Reading::said_status, value_words::specs::Answers::bind_opens))]
fn view_status(alloc: Global, words: &mut Pieces<'_>) -> Result<Status, WordFault>
    ensures { GivesWord result (said_status SView words.old) }
{
    let view = words.next::<ViewId>()?;
    words.value()?;
    let members = words.labelled_owned::<List<Member>>(alloc)?;
    let frozen = words.labelled::<bool>()?;
    words.ended(Status::View {
        view,
        members,
        frozen,
    })
}

/// The value of a group, which stands behind a label without an `=` of its own.
#[tactic(auto, unfolding(record_lines::specs::Reading::next, record_lines::specs::Reading::labelled, value_words::specs::Answers::bind_opens))]
fn labelled_text(alloc: Global, words: &mut Pieces<'_>) -> Result<Text, WordFault>
    ensures found { IfOk result (λ x. next (labelled (λ w. kept_text (text_of w))) words.old
        ≡ Some (x, words.new)) }
    ensures refused { IfErr result (λ e. FailsWord e
        (next (labelled (λ w. kept_text (text_of w))) words.old)) }
{
    let value = words.value()?;
    escaped_text(alloc, value)
}

/// A group of which the node holds a list.
#[tactic(auto, unfolding(record_lines::specs::Reading::said_status, value_words::specs::Answers::bind_opens))]
fn group_status(alloc: Global, words: &mut Pieces<'_>) -> Result<Status, WordFault>
    ensures { GivesWord result (said_status SGroup words.old) }
{
    let group = words.next_owned::<Name>(alloc)?;
    let leader = words.labelled::<Option<u8>>()?;
    let len = words.labelled::<u32>()?;
    let members = words.labelled_owned::<Providers>(alloc)?;
    let value = labelled_text(alloc, words)?;
    words.ended(Status::Group {
        group,
        leader,
        len,
        members,
        value,
    })
}

/// A protocol that runs in a group.
#[tactic(auto, unfolding(record_lines::specs::Reading::said_status, value_words::specs::Answers::bind_opens))]
fn vote_status(alloc: Global, words: &mut Pieces<'_>) -> Result<Status, WordFault>
    ensures { GivesWord result (said_status SVote words.old) }
{
    let group = words.next_owned::<Name>(alloc)?;
    let proto = words.next::<ProtoId>()?;
    let phase = words.labelled::<u16>()?;
    let kind = words.labelled::<Kind>()?;
    let waiting = words.labelled_owned::<Option<Providers>>(alloc)?;
    words.ended(Status::Vote {
        group,
        proto,
        phase,
        kind,
        waiting,
    })
}

/// A line of a status: the words that are left.
#[tactic(auto, unfolding(record_lines::specs::Reading::status_read, record_lines::specs::Reading::status_head, value_words::specs::Words::chosen, value_words::specs::Answers::bind_opens))]
pub fn status_words(alloc: Global, words: &mut Pieces<'_>) -> Result<Status, WordFault>
    ensures { GivesWord result (status_read words.old) }
{
    let head = words.take().ok_or(WordFault::BadWord)?;
    if is_word(b"hats", head) {
        return ring_status(alloc, words);
    }
    if is_word(b"hagsns", head) {
        return view_status(alloc, words);
    }
    if is_word(b"hagsgr", head) {
        return group_status(alloc, words);
    }
    if is_word(b"hagsvote", head) {
        return vote_status(alloc, words);
    }
    Err(WordFault::BadWord)
}
