//! The settings of a node, as the input of a command.
ghost use Rattle.std.specs.Prelude.{◌≡◌, ◌≤◌, ◌+◌, IfOk, IfErr, IfSome};
ghost use Rattle.std.specs.Io.KnownBytes.{IsAtEnd};
ghost use Rattle.settings_digest.specs.Digest.{settings_digest};
ghost use Rattle.world_model.specs.Reading.{IsScript};
ghost use Rattle.world_model.specs.Settings.{daemon_script};
ghost use Rattle.hags_cli.specs.Tasks.{SettingsEnd};

use crate::ending::Ending;
use crate::input::read_input;
use hags_io::Source;
use script_reader::read_daemon;
use settings_digest::settings_digest;
use std::alloc::Global;
use world_model::Script;

/// Settings that were read: the script that they spell, and their digest.
#[derive(Drop)]
pub struct Settings {
    pub script: Script,
    pub digest: u64,
}

/// Reads the settings of a node (1 to 32) to their end: for a daemon of it, with so many objects for its clients, or,
/// with none, for who asks it. The fault is how the command ends.
#[tactic(auto, using(crate::proofs::SettingsLaws::settings_are, crate::proofs::SettingsLaws::settings_have, crate::proofs::SettingsLaws::digest_is, crate::proofs::SettingsLaws::input_ends, crate::proofs::SettingsLaws::script_ends, crate::proofs::SettingsLaws::has_ports))]
pub fn read_settings<S: Source>(
    alloc: Global,
    node: u8,
    objects: Option<u32>,
    input: &mut S,
) -> Result<Settings, Ending>
    ensures read { IfOk result (λ settings. IfSome (S.left input.old)
        (λ b. daemon_script node objects b ≡ IsScript settings.script)) }
    ensures digest { IfOk result (λ settings. IfSome (S.left input.old)
        (λ b. settings.digest ≡ settings_digest b)) }
    ensures end { IfOk result (λ _. IsAtEnd (S.left input.new)) }
    ensures ports { IfOk result (λ settings. settings.script.config.port + 32 ≤ 65535) }
    ensures fault { IfErr result (SettingsEnd node objects (S.left input.old)
        (S.faults input.old) (S.faults input.new)) }
{
    let front = read_input(alloc, input)?;
    let script = read_daemon(alloc, front.as_slice(), node, objects)?;
    let digest = settings_digest(front.as_slice());
    Ok(Settings { script, digest })
}
