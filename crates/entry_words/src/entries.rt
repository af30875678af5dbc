//! Votes and entries.
ghost use Rattle.std.specs.Prelude.{◌≡◌, ◌++◌, OnOk, codes, flat_map};
ghost use Rattle.value_words.specs.Wording.{word, joined};
ghost use Rattle.entry_words.specs.Wording.{value_option_text, vote_text, default_letter, row_vote_text, row_text, phase_text, closed_text, entry_text, what_text, running_text};

use crate::kinds::kind_of;
use crate::proposals::put_proposal;
use group_attr::DefaultVote;
use proposal_core::{Closed, Entry, Row, RowVote, Running, Vote};
use rsct_packet::{NoMemory, ProtoId, Text};
use value_words::{
    put_number, put_number_word, put_proto, put_provider, put_providers, put_text, put_value,
};

#[tactic(auto, unfolding(crate::specs::Wording::value_option_text))]
fn put_value_option(out: &mut Vec<u8>, value: &Option<Text>) -> Result<(), NoMemory>
    ensures { OnOk result (out.new.items ≡ out.old.items ++ value_option_text value.now) }
{
    match value {
        None => put_text(out, b"-"),
        Some(value) => put_value(out, value.bytes()),
    }
}

#[tactic(auto, unfolding(crate::specs::Wording::vote_text))]
pub fn vote_text(vote: Vote) -> &'static [u8]
    ensures { result.now ≡ vote_text vote }
{
    match vote {
        Vote::Approve => b"A",
        Vote::Continue => b"C",
        Vote::Reject => b"R",
    }
}

#[tactic(auto, unfolding(crate::specs::Wording::default_letter))]
fn default_letter(vote: DefaultVote) -> &'static [u8]
    ensures { result.now ≡ default_letter vote }
{
    match vote {
        DefaultVote::Approve => b"A",
        DefaultVote::Reject => b"R",
    }
}

#[tactic(auto, unfolding(crate::specs::Wording::row_vote_text))]
fn put_row_vote(out: &mut Vec<u8>, vote: RowVote) -> Result<(), NoMemory>
    ensures { OnOk result (out.new.items ≡ out.old.items ++ row_vote_text vote) }
{
    match vote {
        RowVote::Cast(vote) => put_text(out, vote_text(vote)),
        RowVote::Late(vote) => {
            put_text(out, b"L")?;
            put_text(out, default_letter(vote))
        }
        RowVote::Failed(vote) => {
            put_text(out, b"F")?;
            put_text(out, default_letter(vote))
        }
    }
}

#[tactic(auto, unfolding(crate::specs::Wording::row_text))]
fn put_row(out: &mut Vec<u8>, row: Row) -> Result<(), NoMemory>
    ensures { OnOk result (out.new.items ≡ out.old.items ++ row_text row) }
{
    put_provider(out, row.provider)?;
    put_text(out, b"=")?;
    put_row_vote(out, row.vote)
}

/// Rows, each behind a comma.
fn put_more_rows(out: &mut Vec<u8>, rows: &[Row]) -> Result<(), NoMemory>
    ensures { OnOk result (out.new.items ≡ out.old.items
        ++ flat_map (λ y. codes "," ++ row_text y) rows.now) }
{
    for row in rows {
        put_text(out, b",")?;
        put_row(out, *row)?;
    }
    Ok(())
}

/// Rows between commas, `-` for none.
#[tactic(auto, unfolding(value_words::specs::Wording::joined))]
fn put_rows(out: &mut Vec<u8>, rows: &[Row]) -> Result<(), NoMemory>
    ensures { OnOk result (out.new.items ≡ out.old.items ++ joined row_text rows.now) }
{
    match rows {
        [] => put_text(out, b"-"),
        [first, others @ ..] => {
            put_row(out, *first)?;
            put_more_rows(out, others)
        }
    }
}

/// The protocol and the phase, each with the space behind it.
#[tactic(auto, unfolding(crate::specs::Wording::phase_text, value_words::specs::Wording::word))]
pub fn put_phase(out: &mut Vec<u8>, proto: ProtoId, phase: u16) -> Result<(), NoMemory>
    ensures { OnOk result (out.new.items ≡ out.old.items ++ phase_text proto phase) }
{
    put_proto(out, proto)?;
    put_text(out, b" ")?;
    put_number_word(out, u32::from(phase))
}

#[tactic(auto, unfolding(crate::specs::Wording::closed_text))]
fn put_closed(out: &mut Vec<u8>, closed: &Closed) -> Result<(), NoMemory>
    ensures { OnOk result (out.new.items ≡ out.old.items ++ closed_text closed.now) }
{
    put_phase(out, closed.proto, closed.phase)?;
    put_rows(out, closed.rows.as_slice())
}

/// A label, and behind it what closes a phase, and its value.
fn put_closed_value(out: &mut Vec<u8>, label: &[u8], closed: &Closed) -> Result<(), NoMemory>
    ensures { OnOk result (out.new.items ≡ out.old.items
        ++ (label.now ++ closed_text closed.now ++ codes " "
        ++ value_option_text closed.now.value)) }
{
    put_text(out, label)?;
    put_closed(out, closed)?;
    put_text(out, b" ")?;
    put_value_option(out, &closed.value)
}

#[tactic(auto, unfolding(crate::specs::Wording::entry_text))]
pub fn put_entry(out: &mut Vec<u8>, entry: &Entry) -> Result<(), NoMemory>
    ensures { OnOk result (out.new.items ≡ out.old.items ++ entry_text entry.now) }
{
    match entry {
        Entry::Once(x) => {
            put_text(out, b"once ")?;
            put_proposal(out, x)
        }
        Entry::Begin(x) => {
            put_text(out, b"begin ")?;
            put_proposal(out, x)
        }
        Entry::Phase(c) => put_closed_value(out, b"phase ", c),
        Entry::Approve(c) => put_closed_value(out, b"approve ", c),
        Entry::Reject(c) => {
            put_text(out, b"reject ")?;
            put_closed(out, c)
        }
        Entry::Late { proto, phase, ps } => {
            put_text(out, b"late ")?;
            put_phase(out, *proto, *phase)?;
            put_providers(out, ps.as_slice())
        }
    }
}

/// What a provider hears of an entry.
#[tactic(auto, unfolding(crate::specs::Wording::what_text))]
fn put_what(out: &mut Vec<u8>, entry: &Entry) -> Result<(), NoMemory>
    ensures { OnOk result (out.new.items ≡ out.old.items ++ what_text entry.now) }
{
    match entry {
        Entry::Once(x) => {
            put_text(out, b"once-")?;
            put_text(out, kind_of(x))
        }
        Entry::Begin(x) => {
            put_text(out, b"begin-")?;
            put_text(out, kind_of(x))
        }
        Entry::Phase(_) => put_text(out, b"phase"),
        Entry::Approve(_) => put_text(out, b"approve"),
        Entry::Reject(_) => put_text(out, b"reject"),
        Entry::Late { .. } => put_text(out, b"late"),
    }
}

#[tactic(auto, unfolding(value_words::specs::Wording::word))]
pub fn put_what_word(out: &mut Vec<u8>, entry: &Entry) -> Result<(), NoMemory>
    ensures { OnOk result (out.new.items ≡ out.old.items ++ word (what_text entry.now)) }
{
    put_what(out, entry)?;
    put_text(out, b" ")
}

/// The protocol that runs and its phase, `-` for none.
#[tactic(auto, unfolding(crate::specs::Wording::running_text))]
pub fn put_running(out: &mut Vec<u8>, run: &Option<Running>) -> Result<(), NoMemory>
    ensures { OnOk result (out.new.items ≡ out.old.items ++ running_text run.now) }
{
    match run {
        None => put_text(out, b"-"),
        Some(run) => {
            put_proto(out, run.proto)?;
            put_text(out, b":")?;
            put_number(out, u32::from(run.phase))
        }
    }
}
