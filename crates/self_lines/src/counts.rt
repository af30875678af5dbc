//! The line of what a daemon counts.
ghost use Rattle.std.specs.Prelude.{◌≡◌, ◌++◌, OnOk, codes, decimal};
ghost use Rattle.value_words.specs.Wording.{word, member_text};
ghost use Rattle.daemon_model.specs.SelfLines.{version_text, digest_text, daemon_text};

use crate::numbers::{put_digest_word, put_long_word};
use daemon_model::{About, Counts, Version};
use itoa::Buffer;
use rsct_packet::{Member, NoMemory};
use value_words::{put_count_word, put_number, put_text};

#[tactic(auto, unfolding(daemon_model::specs::SelfLines::version_text))]
fn put_version(out: &mut Vec<u8>, version: Version) -> Result<(), NoMemory>
    ensures { OnOk result (out.new.items ≡ out.old.items ++ version_text version) }
{
    put_number(out, u32::from(version.major))?;
    put_text(out, b".")?;
    put_number(out, u32::from(version.minor))?;
    put_text(out, b".")?;
    put_number(out, u32::from(version.patch))
}

#[tactic(auto, unfolding(value_words::specs::Wording::word, value_words::specs::Wording::member_text))]
fn put_member_word(out: &mut Vec<u8>, member: Member) -> Result<(), NoMemory>
    ensures { OnOk result (out.new.items ≡ out.old.items ++ word (member_text member)) }
{
    put_number(out, u32::from(member.node))?;
    put_text(out, b".")?;
    put_number(out, member.inc)?;
    put_text(out, b" ")
}

#[tactic(auto, unfolding(value_words::specs::Wording::word))]
fn put_version_word(out: &mut Vec<u8>, version: Version) -> Result<(), NoMemory>
    ensures { OnOk result (out.new.items ≡ out.old.items ++ word (version_text version)) }
{
    put_version(out, version)?;
    put_text(out, b" ")
}

fn put_count(out: &mut Vec<u8>, count: usize) -> Result<(), NoMemory>
    ensures { OnOk result (out.new.items ≡ out.old.items ++ decimal count) }
{
    let mut digits = Buffer::new();
    put_text(out, digits.format(count).as_bytes())
}

fn put_node(out: &mut Vec<u8>, me: Member) -> Result<(), NoMemory>
    ensures { OnOk result (out.new.items
        ≡ out.old.items ++ codes "hagsd " ++ word (member_text me)) }
{
    put_text(out, b"hagsd ")?;
    put_member_word(out, me)
}

fn put_about(out: &mut Vec<u8>, about: About) -> Result<(), NoMemory>
    ensures { OnOk result (out.new.items ≡ out.old.items
        ++ codes "version=" ++ word (version_text about.version)
        ++ codes "settings=" ++ word (digest_text about.settings)) }
{
    put_text(out, b"version=")?;
    put_version_word(out, about.version)?;
    put_text(out, b"settings=")?;
    put_digest_word(out, about.settings)
}

/// The name of a count, and the count.
fn put_counted(out: &mut Vec<u8>, name: &[u8], count: u64) -> Result<(), NoMemory>
    ensures { OnOk result (out.new.items
        ≡ out.old.items ++ name.now ++ word (decimal count)) }
{
    put_text(out, name)?;
    put_long_word(out, count)
}

fn put_keys(out: &mut Vec<u8>, keys: usize, ended: usize) -> Result<(), NoMemory>
    ensures { OnOk result (out.new.items ≡ out.old.items
        ++ codes "keys=" ++ word (decimal keys) ++ codes "ended=" ++ decimal ended) }
{
    put_text(out, b"keys=")?;
    put_count_word(out, keys)?;
    put_text(out, b"ended=")?;
    put_count(out, ended)
}

/// The line `hagsd`, with its line feed: which node it is and in which incarnation (`me`), what it was told of itself, and
/// what it counted.
pub fn put_daemon(
    out: &mut Vec<u8>,
    me: Member,
    about: About,
    counts: Counts,
) -> Result<(), NoMemory>
    ensures { OnOk result (out.new.items ≡ out.old.items ++ daemon_text me about counts) }
{
    put_node(out, me)?;
    put_about(out, about)?;
    put_counted(out, b"turns=", counts.receives.turns)?;
    put_counted(out, b"ticks=", counts.ticks)?;
    put_counted(out, b"received=", counts.receives.received)?;
    put_counted(out, b"strays=", counts.receives.strays)?;
    put_counted(out, b"sent=", counts.sent)?;
    put_counted(out, b"failed=", counts.receives.failed)?;
    put_keys(out, counts.keys, counts.ended)?;
    put_text(out, b"\n")
}
