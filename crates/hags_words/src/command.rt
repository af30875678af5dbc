//! The command that the words of a command line spell.
ghost use Rattle.std.specs.Prelude.{◌≡◌, ◌≤◌, IfOk, IfSome, map, string_bytes};
ghost use Rattle.hags_words.specs.Texts.{seen, text_of};
ghost use Rattle.hags_words.specs.Commands.{name_of, subject_of, run_of, load_of, turns_for, has_own, asked_with, AreWithin, daemon_of, status_of, client_of, table_of, command_with, daemon_after, help_or_version, command_after, command_of, IsWithin};

use crate::flags::{Flags, take_flags};
use crate::numbers::{node_number, number, number_if_any};
use crate::options::{Options, read_options};
use packet_bodies::What;
use rsct_packet::{List, Name, NoMemory};
use std::alloc::Global;

/// How many views the script of `load` has at most.
const MOST_VIEWS: u32 = 2_000;

/// How many datagrams `status` receives at most, unless `--turns` says it.
const STATUS_TURNS: u32 = 1_000;

/// How many turns `client` does, unless `--turns` says it.
const CLIENT_TURNS: u32 = 1_000;

/// The commands by their words: `run`, `load`, `daemon`, `status`, `client` and `table`.
#[derive(Clone, Copy, Debug, PartialEq, Eq)]
pub enum CommandName {
    Run,
    Load,
    Daemon,
    Status,
    Client,
    Table,
}

/// What `status` asks about: a part of what the node knows; or, of its daemon, the clients that it has or its counts.
#[derive(Clone, Copy, Debug, PartialEq, Eq)]
pub enum Subject {
    Node(What),
    Clients,
    Daemon,
}

/// What a daemon is asked for: whether clients on other machines are served, and are told the lines of entries; after how
/// many silent ticks a key ends, from 10 to 1,000,000; at how many ticks in a row apart its node asks for a view of its
/// reach, from 10 to 10,000; and how many milliseconds of a pause end it, from 100 to 3,600,000. Lines of entries and
/// silent keys are only where clients on other machines are served.
#[derive(Clone, Copy, Debug, PartialEq, Eq)]
pub struct DaemonOptions {
    pub remote: bool,
    pub entries: bool,
    pub silence: Option<u32>,
    pub mend: Option<u32>,
    pub gap: Option<u32>,
}

/// What a command line asks for.
#[derive(Drop)]
pub enum Command {
    /// `run [--kinds LIST]`: play a script. The bytes of LIST as they stand: whether they list kinds of records is for
    /// whoever reads kinds.
    Run {
        kinds: Option<List<u8>>,
    },
    /// `load N`: play the generated script of N views, from 1 to 2,000.
    Load {
        views: u32,
    },
    /// `daemon --node N [--inc I] [--turns T | --lasting] [--remote [--entries] [--silence S]] [--mend M] [--gap G]`: serve
    /// node N, from 1 to 32, in the incarnation I, from 1 on, or in one that the clock gives, for T turns, from 1 to
    /// 4,294,967,295, which is also what is taken where T is not told; with `--lasting` for 18,446,744,073,709,551,615.
    Daemon {
        node: u8,
        incarnation: Option<u32>,
        turns: u64,
        options: DaemonOptions,
    },
    /// `status WHAT --node N [--turns T]`: ask node N, from 1 to 32, and receive T times at most, from 1 on; 1,000 times
    /// where T is not told.
    Status {
        subject: Subject,
        node: u8,
        turns: u32,
    },
    /// `client --node N [--turns T] [--key K]`: use the daemon of node N, from 1 to 32, as a client on another machine, for
    /// T turns, from 1 on, or for 1,000 where T is not told; with the key K, from 1 on, or with one that the clock gives.
    Client {
        node: u8,
        turns: u32,
        key: Option<u32>,
    },
    /// `table GROUP`: play a script whose clients each keep a map of their groups, and write the maps of this group.
    Table {
        group: Name,
    },
    /// `--help`, alone or after a command: the text about all commands, or about that one.
    Help {
        about: Option<CommandName>,
    },
    /// `--version`, alone or after a command.
    Version,
}

/// The command of this word.
#[tactic(auto, unfolding(crate::specs::Commands::name_of))]
fn name_of(word: &[u8]) -> Option<CommandName>
    ensures { result ≡ name_of word.now }
{
    if word == b"run".as_slice() {
        Some(CommandName::Run)
    } else if word == b"load".as_slice() {
        Some(CommandName::Load)
    } else if word == b"daemon".as_slice() {
        Some(CommandName::Daemon)
    } else if word == b"status".as_slice() {
        Some(CommandName::Status)
    } else if word == b"client".as_slice() {
        Some(CommandName::Client)
    } else if word == b"table".as_slice() {
        Some(CommandName::Table)
    } else {
        None
    }
}

/// What a status of this word asks about.
#[tactic(auto, unfolding(crate::specs::Commands::subject_of))]
fn subject_of(word: &[u8]) -> Option<Subject>
    ensures { result ≡ subject_of word.now }
{
    if word == b"hats".as_slice() {
        Some(Subject::Node(What::Hats))
    } else if word == b"hagsns".as_slice() {
        Some(Subject::Node(What::Hagsns))
    } else if word == b"hagsgr".as_slice() {
        Some(Subject::Node(What::Hagsgr))
    } else if word == b"hagsvote".as_slice() {
        Some(Subject::Node(What::Hagsvote))
    } else if word == b"hagscl".as_slice() {
        Some(Subject::Clients)
    } else if word == b"hagsd".as_slice() {
        Some(Subject::Daemon)
    } else {
        None
    }
}

/// The bytes of a text, in memory of their own.
fn owned(alloc: Global, text: Option<&str>) -> Result<Option<List<u8>>, NoMemory>
    ensures { IfOk result (λ bytes. bytes ≡ text_of text.entry) }
{
    match text {
        None => Ok(None),
        Some(text) => Ok(Some(List::of(alloc, text.as_bytes())?)),
    }
}

/// Is an option of a daemon alone given?
fn has_own(options: Options<'_>) -> bool
    ensures { result ≡ has_own (seen options.entry) }
{
    options.silence.is_some() || options.mend.is_some() || options.gap.is_some()
}

/// `run [--kinds LIST]`
#[tactic(auto, unfolding(crate::specs::Commands::run_of))]
fn run_of(alloc: Global, options: Options<'_>) -> Result<Option<Command>, NoMemory>
    ensures value { IfOk result (λ command. command ≡ run_of (seen options.entry)) }
    ensures within { IfOk result (λ command. IfSome command IsWithin) }
{
    if options.operand.is_some()
        || options.node.is_some()
        || options.inc.is_some()
        || options.turns.is_some()
        || options.key.is_some()
        || has_own(options)
    {
        return Ok(None);
    }
    let kinds = owned(alloc, options.kinds)?;
    Ok(Some(Command::Run { kinds }))
}

/// `load N`
#[tactic(auto, unfolding(crate::specs::Commands::load_of))]
fn load_of(options: Options<'_>) -> Option<Command>
    ensures value { result ≡ load_of (seen options.entry) }
    ensures within { IfSome result IsWithin }
{
    if options.kinds.is_some()
        || options.node.is_some()
        || options.inc.is_some()
        || options.turns.is_some()
        || options.key.is_some()
        || has_own(options)
    {
        return None;
    }
    let views = number(1, MOST_VIEWS, options.operand?)?;
    Some(Command::Load { views })
}

/// How many turns a daemon does that is told so many, at least 1, or none; it may be told none where it is to last.
#[tactic(auto, unfolding(crate::specs::Commands::turns_for))]
fn turns_for(lasting: bool, told: Option<u32>) -> Option<u64>
    requires { IfSome told (λ n. 1 ≤ n) }
    ensures value { result ≡ turns_for lasting told }
    ensures within { IfSome result (λ n. 1 ≤ n) }
{
    match (lasting, told) {
        (false, None) => Some(u64::from(u32::MAX)),
        (false, Some(turns)) => Some(u64::from(turns)),
        (true, None) => Some(u64::MAX),
        (true, Some(_)) => None,
    }
}

/// What a daemon is asked for, with numbers in their ranges; nothing where lines of entries or silent keys are asked of one
/// that serves no clients on other machines.
#[tactic(auto, unfolding(crate::specs::Commands::asked_with))]
fn asked_with(
    flags: Flags,
    silence: Option<u32>,
    mend: Option<u32>,
    gap: Option<u32>,
) -> Option<DaemonOptions>
    requires silence { IfSome silence (λ n. 10 ≤ n) }
    requires mend { IfSome mend (λ n. 10 ≤ n) }
    requires gap { IfSome gap (λ n. 100 ≤ n) }
    ensures value { result ≡ asked_with flags silence mend gap }
    ensures within { IfSome result AreWithin }
{
    if !flags.remote && (flags.entries || silence.is_some()) {
        return None;
    }
    Some(DaemonOptions {
        remote: flags.remote,
        entries: flags.entries,
        silence,
        mend,
        gap,
    })
}

/// `daemon --node N [--inc I] [--turns T | --lasting] [--remote [--entries] [--silence S]] [--mend M] [--gap G]`
#[tactic(auto, unfolding(crate::specs::Commands::daemon_of))]
fn daemon_of(options: Options<'_>, flags: Flags) -> Option<Command>
    ensures value { result ≡ daemon_of flags (seen options.entry) }
    ensures within { IfSome result IsWithin }
{
    if options.operand.is_some() || options.kinds.is_some() || options.key.is_some() {
        return None;
    }
    let node = node_number(options.node?)?;
    let incarnation = number_if_any(1, u32::MAX, options.inc)?;
    let turns = turns_for(flags.lasting, number_if_any(1, u32::MAX, options.turns)?)?;
    let silence = number_if_any(10, 1_000_000, options.silence)?;
    let mend = number_if_any(10, 10_000, options.mend)?;
    let gap = number_if_any(100, 3_600_000, options.gap)?;
    let options = asked_with(flags, silence, mend, gap)?;
    Some(Command::Daemon {
        node,
        incarnation,
        turns,
        options,
    })
}

/// `status WHAT --node N [--turns T]`
#[tactic(auto, unfolding(crate::specs::Commands::status_of))]
fn status_of(options: Options<'_>) -> Option<Command>
    ensures value { result ≡ status_of (seen options.entry) }
    ensures within { IfSome result IsWithin }
{
    if has_own(options) {
        return None;
    }
    if options.kinds.is_some() || options.inc.is_some() || options.key.is_some() {
        return None;
    }
    let subject = subject_of(options.operand?.as_bytes())?;
    let node = node_number(options.node?)?;
    let turns = number_if_any(1, u32::MAX, options.turns)?.unwrap_or(STATUS_TURNS);
    Some(Command::Status {
        subject,
        node,
        turns,
    })
}

/// `client --node N [--turns T] [--key K]`
#[tactic(auto, unfolding(crate::specs::Commands::client_of))]
fn client_of(options: Options<'_>) -> Option<Command>
    ensures value { result ≡ client_of (seen options.entry) }
    ensures within { IfSome result IsWithin }
{
    if has_own(options) {
        return None;
    }
    if options.operand.is_some() || options.kinds.is_some() || options.inc.is_some() {
        return None;
    }
    let node = node_number(options.node?)?;
    let turns = number_if_any(1, u32::MAX, options.turns)?.unwrap_or(CLIENT_TURNS);
    let key = number_if_any(1, u32::MAX, options.key)?;
    Some(Command::Client { node, turns, key })
}

/// `table GROUP`
#[tactic(auto, unfolding(crate::specs::Commands::table_of))]
fn table_of(alloc: Global, options: Options<'_>) -> Result<Option<Command>, NoMemory>
    ensures value { IfOk result (λ command. command ≡ table_of (seen options.entry)) }
    ensures within { IfOk result (λ command. IfSome command IsWithin) }
{
    if options.kinds.is_some()
        || options.node.is_some()
        || options.inc.is_some()
        || options.turns.is_some()
        || options.key.is_some()
        || has_own(options)
    {
        return Ok(None);
    }
    let Some(text) = options.operand else {
        return Ok(None);
    };
    match Name::of(alloc, text.as_bytes())? {
        None => Ok(None),
        Some(group) => Ok(Some(Command::Table { group })),
    }
}

/// The command of this name with these options.
#[tactic(auto, unfolding(crate::specs::Commands::command_with))]
fn command_with(
    alloc: Global,
    name: CommandName,
    options: Options<'_>,
) -> Result<Option<Command>, NoMemory>
    ensures value { IfOk result (λ command. command ≡ command_with name (seen options.entry)) }
    ensures within { IfOk result (λ command. IfSome command IsWithin) }
{
    match name {
        CommandName::Run => run_of(alloc, options),
        CommandName::Load => Ok(load_of(options)),
        CommandName::Daemon => Ok(daemon_of(options, Flags::none())),
        CommandName::Status => Ok(status_of(options)),
        CommandName::Client => Ok(client_of(options)),
        CommandName::Table => table_of(alloc, options),
    }
}

/// `--help` or `--version`, and nothing else.
#[tactic(auto, unfolding(crate::specs::Commands::help_or_version))]
fn help_or_version(about: Option<CommandName>, words: &[String]) -> Option<Command>
    ensures value { result ≡ help_or_version about (map string_bytes words.now) }
    ensures within { IfSome result IsWithin }
{
    let [word] = words else {
        return None;
    };
    if word.as_bytes() == b"--help".as_slice() {
        Some(Command::Help { about })
    } else if word.as_bytes() == b"--version".as_slice() {
        Some(Command::Version)
    } else {
        None
    }
}

/// `daemon` with the words after it.
#[tactic(auto, unfolding(crate::specs::Commands::daemon_after))]
fn daemon_after(alloc: Global, words: &[String]) -> Result<Option<Command>, NoMemory>
    ensures value { IfOk result
        (λ command. command ≡ daemon_after (map string_bytes words.now)) }
    ensures within { IfOk result (λ command. IfSome command IsWithin) }
{
    let Some(split) = take_flags(alloc, words)? else {
        return Ok(None);
    };
    match read_options(alloc, split.left.as_slice())? {
        None => Ok(None),
        Some(options) => Ok(daemon_of(options, split.flags)),
    }
}

/// The command of this name, with the words after its name.
#[tactic(auto, unfolding(crate::specs::Commands::command_after))]
fn command_after(
    alloc: Global,
    name: CommandName,
    words: &[String],
) -> Result<Option<Command>, NoMemory>
    ensures value { IfOk result (λ command. command ≡
        command_after name (map string_bytes words.now)) }
    ensures within { IfOk result (λ command. IfSome command IsWithin) }
{
    if let Some(command) = help_or_version(Some(name), words) {
        return Ok(Some(command));
    }
    if name == CommandName::Daemon {
        return daemon_after(alloc, words);
    }
    match read_options(alloc, words)? {
        None => Ok(None),
        Some(options) => command_with(alloc, name, options),
    }
}

/// The command that the words behind the program's name spell, whatever they are; `None` exactly where they spell none,
/// which is a faulty command line. Numbers are within their ranges. `Err` only where memory runs out.
#[tactic(auto, unfolding(crate::specs::Commands::command_of))]
pub fn read_command(alloc: Global, words: &[String]) -> Result<Option<Command>, NoMemory>
    ensures value { IfOk result (λ command. command ≡ command_of (map string_bytes words.now)) }
    ensures within { IfOk result (λ command. IfSome command IsWithin) }
{
    match words {
        [] => Ok(None),
        [first, rest @ ..] => match name_of(first.as_bytes()) {
            Some(name) => command_after(alloc, name, rest),
            None => Ok(help_or_version(None, words)),
        },
    }
}
