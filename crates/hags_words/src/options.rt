//! What the words after a command give, read by `clap`.
ghost use Rattle.std.specs.Prelude.{◌≡◌, ◌≢◌, IfOk, IfErr, map, false, IsSome, IfSome, None, string_bytes, option_map};
ghost use Rattle.clap.specs.Words.{app_of, found_of, kind_of, rule_of};
ghost use Rattle.clap.specs.Lexer.{is_short_word};
ghost use Rattle.hags_words.specs.App.{option_rule, options_app};
ghost use Rattle.hags_words.specs.Options.{is_end, has_short};
ghost use Rattle.hags_words.specs.Found.{HasValues};
ghost use Rattle.hags_words.specs.Texts.{seen, texts_in, given_by};

use clap::error::ErrorKind;
use clap::{Arg, ArgMatches, Command, Error};
use rsct_packet::NoMemory;
use std::alloc::{AllocError, Global};

/// The texts that the words after a command give: of the operand, and of each option.
#[derive(Clone, Copy)]
pub struct Options<'a> {
    pub operand: Option<&'a str>,
    pub kinds: Option<&'a str>,
    pub node: Option<&'a str>,
    pub inc: Option<&'a str>,
    pub turns: Option<&'a str>,
    pub key: Option<&'a str>,
    pub silence: Option<&'a str>,
    pub mend: Option<&'a str>,
    pub gap: Option<&'a str>,
}

/// An option of this name, with a value.
fn option_of<'a>(alloc: Global, name: &'a str) -> Arg<'a>
    ensures rule { rule_of result ≡ option_rule name.entry.now }
    ensures own { result.global ≡ false }
{
    Arg::new(alloc, name).long(name)
}

/// The one application of `clap`, for the words after any command: an operand, and options with a value each. Which of
/// them a command takes or needs is told above it.
fn options_app<'a>(alloc: Global) -> Result<Command<'a>, AllocError>
    ensures { IfOk result (λ app. app_of app ≡ options_app) }
{
    let operand = Arg::new(alloc, "operand");
    let kinds = option_of(alloc, "kinds");
    let node = option_of(alloc, "node");
    let inc = option_of(alloc, "inc");
    let turns = option_of(alloc, "turns");
    let key = option_of(alloc, "key");
    let silence = option_of(alloc, "silence");
    let mend = option_of(alloc, "mend");
    let gap = option_of(alloc, "gap");
    Command::new(alloc, "hags")
        .no_binary_name(true)
        .disable_help_flag(true)
        .arg(operand)?
        .arg(kinds)?
        .arg(node)?
        .arg(inc)?
        .arg(turns)?
        .arg(key)?
        .arg(silence)?
        .arg(mend)?
        .arg(gap)
}

/// Is it a hyphen with more behind it that does not begin with a second one, as `-abc`?
fn is_short(word: &[u8]) -> bool
    ensures { result ≡ is_short_word word.now }
{
    match word {
        [b'-', second, ..] => *second != b'-',
        _ => false,
    }
}

/// Is it `--`, which ends the options?
pub fn is_end(word: &[u8]) -> bool
    ensures { result ≡ is_end word.now }
{
    word == b"--".as_slice()
}

/// Is one of the words before `--` an option of one letter? No command has any.

fn has_short(words: &[String]) -> bool
    ensures { result ≡ has_short (map string_bytes words.now) }
{
    for word in words {
        let bytes = word.as_bytes();
        if is_end(bytes) {
            return false;
        }
        if is_short(bytes) {
            return true;
        }
    }
    false
}

/// What `clap` finds in the words, where they are of the grammar; else an error.
fn matches_of<'a>(alloc: Global, words: &'a [String]) -> Result<ArgMatches<'a>, Error>
    requires { has_short (map string_bytes words.now) ≡ false }
    ensures ok { IfOk result (λ m. IsSome (given_by words.entry.now)) }
    ensures values { IfOk result (λ m. IfSome (given_by words.entry.now) (HasValues (found_of m))) }
    ensures err { IfErr result (λ e. kind_of e ≢ ErrorKind.OutOfMemory →
        given_by words.entry.now ≡ None) }
{
    let app = options_app(alloc)?;
    app.try_get_matches_from(words)
}

/// The texts that the words after a command give; none exactly where they are not of the grammar.
pub fn read_options<'a>(alloc: Global, words: &'a [String]) -> Result<Option<Options<'a>>, NoMemory>
    ensures { IfOk result (λ o. option_map seen o ≡
        option_map texts_in (given_by words.entry.now)) }
{
    if has_short(words) {
        return Ok(None);
    }
    match matches_of(alloc, words) {
        Ok(matches) => Ok(Some(Options {
            operand: matches.get_str("operand"),
            kinds: matches.get_str("kinds"),
            node: matches.get_str("node"),
            inc: matches.get_str("inc"),
            turns: matches.get_str("turns"),
            key: matches.get_str("key"),
            silence: matches.get_str("silence"),
            mend: matches.get_str("mend"),
            gap: matches.get_str("gap"),
        })),
        Err(e) => match e.kind() {
            ErrorKind::OutOfMemory => Err(NoMemory),
            _ => Ok(None),
        },
    }
}
