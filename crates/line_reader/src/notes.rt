//! What a subscriber is told.
ghost use Rattle.std.specs.Prelude.{◌≡◌};
ghost use Rattle.value_words.specs.Answers.{GivesWord};
ghost use Rattle.record_lines.specs.Reading.{group_note, hosts_note, note_by, note_read, place_read};

use crate::from_word::FromWord;
use crate::items::list_word;
use crate::pieces::Pieces;
use crate::values::{group_name, named_word, text_value};
use record_lines::Note;
use rsct_packet::Member;
use std::alloc::Global;
use value_words::{WordFault, is_word};

/// Of a group: its members and its value.
#[tactic(auto, unfolding(record_lines::specs::Reading::group_note, value_words::specs::Answers::bind_opens))]
fn group_note(alloc: Global, group: &[u8], members: &[u8], value: &[u8]) -> Result<Note, WordFault>
    ensures { GivesWord result (group_note group.now members.now value.now) }
{
    let group = group_name(alloc, group)?;
    let members = named_word(alloc, members)?;
    let value = text_value(alloc, value)?;
    Ok(Note::Group {
        group,
        members,
        value,
    })
}

/// Of the hosts.
#[tactic(auto, unfolding(record_lines::specs::Reading::hosts_note, value_words::specs::Answers::bind_opens))]
fn hosts_note(alloc: Global, members: &[u8]) -> Result<Note, WordFault>
    ensures { GivesWord result (hosts_note members.now) }
{
    let members = list_word::<Member>(alloc, members)?;
    Ok(Note::Hosts { members })
}

/// Of the hosts, or of the group of that name.
#[tactic(auto, unfolding(record_lines::specs::Reading::note_by))]
fn note_by(alloc: Global, group: &[u8], members: &[u8], value: &[u8]) -> Result<Note, WordFault>
    ensures { GivesWord result (note_by group.now members.now value.now) }
{
    if is_word(group, b"HostMembership") {
        hosts_note(alloc, members)
    } else {
        group_note(alloc, group, members, value)
    }
}

/// The place and the note: the words that are left.
#[tactic(auto, unfolding(record_lines::specs::Reading::note_read, value_words::specs::Answers::bind_opens))]
pub fn note_words(alloc: Global, words: &mut Pieces<'_>) -> Result<(Option<u32>, Note), WordFault>
    ensures { GivesWord result (note_read words.old) }
{
    let (group, place, members, value) = words.four().ok_or(WordFault::BadWord)?;
    let place = <Option<u32> as FromWord>::read(place).ok_or(WordFault::BadWord)?;
    let note = note_by(alloc, group, members, value)?;
    Ok((place, note))
}
