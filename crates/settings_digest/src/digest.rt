//! Settings in their normal form, and the digest of that.
ghost use Rattle.std.specs.Prelude.{◌≡◌, flat_map};
ghost use Rattle.settings_digest.specs.Digest.{words_of, is_begin, behind_blank, normal_line, normal_settings, settings_digest, Adds};

use sha2::{Digest, Sha256};
use value_words::{Words, cut_at};

/// The words of a line, of which a comment has none.
#[tactic(auto, unfolding(crate::specs::Digest::words_of, world_model::specs::Reading::is_comment, value_words::specs::Words::words_in, value_words::specs::Words::split_on))]
fn words_of(line: &[u8]) -> Words<'_>
    ensures { result ≡ words_of line.now }
{
    match line {
        [b'#', ..] => Words::of(b"".as_slice()),
        _ => Words::of(line),
    }
}

/// Is it the line `begin`?
#[tactic(auto, unfolding(crate::specs::Digest::is_begin))]
fn is_begin(line: &[u8]) -> bool
    ensures { result ≡ is_begin line.now }
{
    match words_of(line).take() {
        None => false,
        Some(first) => first == b"begin".as_slice(),
    }
}

/// Adds words, each behind a blank.
#[tactic(auto, using(crate::proofs::DigestLaws::adds_nothing, crate::proofs::DigestLaws::adds_more, crate::proofs::DigestLaws::adds_all))]
fn add_words(hasher: &mut Sha256, words: &mut Words<'_>)
    ensures { Adds hasher.old hasher.new (flat_map behind_blank words.old) }
{
    while let Some(word) = words.take() {
        hasher.update(b" ");
        hasher.update(word);
    }
}

/// Adds a line in its normal form.
#[tactic(auto, unfolding(crate::specs::Digest::normal_line), using(crate::proofs::DigestLaws::adds_none, crate::proofs::DigestLaws::adds_both))]
fn add_line(hasher: &mut Sha256, line: &[u8])
    ensures { Adds hasher.old hasher.new (normal_line line.now) }
{
    let mut words = words_of(line);
    let Some(first) = words.take() else {
        return;
    };
    hasher.update(first);
    add_words(hasher, &mut words);
    hasher.update(b"\n");
}

/// Adds settings in their normal form.
#[tactic(auto, using(crate::proofs::DigestLaws::adds_nothing, crate::proofs::DigestLaws::adds_more, crate::proofs::DigestLaws::adds_all, crate::proofs::DigestLaws::at_begin, crate::proofs::DigestLaws::line_taken))]
fn add_settings(hasher: &mut Sha256, settings: &[u8])
    ensures { Adds hasher.old hasher.new (normal_settings settings.now) }
{
    let mut left = settings;
    while let Some((line, after)) = cut_at(b'\n', left) {
        if is_begin(line) {
            return;
        }
        add_line(hasher, line);
        left = after;
    }
    if !is_begin(left) {
        add_line(hasher, left);
    }
}

/// The digest of settings: the number of which the first 8 bytes of the SHA-256 of their normal form are the bytes, the
/// highest first. The normal form has the lines before the first line `begin`, or all lines where there is none, in their
/// order, without comments and lines of no words; one blank stands between two words, none before the first and behind the
/// last one, and each line has its line feed.
#[tactic(auto, unfolding(crate::specs::Digest::settings_digest))]
pub fn settings_digest(settings: &[u8]) -> u64
    ensures { result ≡ settings_digest settings.now }
{
    let mut hasher = Sha256::new();
    add_settings(&mut hasher, settings);
    let digest = hasher.finalize();
    let mut first = [0; 8];
    first.copy_from_slice(&digest[..8]);
    u64::from_be_bytes(first)
}
