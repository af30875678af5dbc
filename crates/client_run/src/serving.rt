//! A client from its start to its end.
ghost use Rattle.std.specs.Prelude.{◌≡◌, ◌≤◌, ◌+◌, OnOk, IfErr, Err};
ghost use Rattle.hags_io.specs.Edges.{Rose};
ghost use Rattle.hags_io.specs.Fronts.{EndsByWrite, EndsByReceive};
ghost use Rattle.link_use.specs.Stops.{StopsClient};
ghost use Rattle.rsct_packet.specs.Format.{EachFits};
ghost use Rattle.daemon_model.specs.Settings.{OverLink, OverLinkIf};
ghost use Rattle.client_run.specs.Running.{IsCall, IsLost, IsFull, Answered, Unanswered, Ended, Failing, Front};
ghost use Rattle.client_run.specs.Using.{first_client, HasKey, Keyed};

use crate::client::Client;
use hags_io::Outside;
use link_use::{Receiving, Stop, buffer, open_link};
use node_sending::shared_network;
use node_state::Config;
use remote_session::Far;
use rsct_packet::List;
use std::alloc::Global;

/// Which daemon a client uses, for how long, and as whom: its node (1 to 32), how many turns the client does (at least 1),
/// and its key (from 1 on), or none, where the clock gives it.
#[derive(Clone, Copy, Debug, PartialEq, Eq)]
pub struct Usage {
    pub node: u8,
    pub turns: u32,
    pub key: Option<u32>,
}

/// A client that made no call, with this key.
#[tactic(auto, unfolding(crate::specs::Using::first_client))]
fn first_client(alloc: Global, config: &Config, node: u8, key: u32) -> Client
    ensures { result ≡ first_client config.now node key }
{
    Client {
        node,
        network: shared_network(config, node, node),
        far: Far::new(alloc, key),
        receiving: Receiving::new(),
        number: 1,
        made: 0,
        answered: 0,
        told: 0,
    }
}

/// The key that is named, or that the clock gives: the low 32 bits of its moment.
#[tactic(auto, using(crate::proofs::UseLaws::by_clock))]
fn key_of<O: Outside>(named: Option<u32>, outside: &mut O) -> u32
    ensures { HasKey named (O.told outside.old) (O.told outside.new) result }
{
    match named {
        Some(key) => key,
        None => (outside.now() % 4_294_967_296) as u32,
    }
}

/// A client over a link that is open.
#[tactic(auto, using(crate::proofs::UseLaws::keyed_answered, crate::proofs::UseLaws::keyed_unanswered, crate::proofs::UseLaws::keyed_ended, crate::proofs::UseLaws::keyed_failing, crate::proofs::UseLaws::keyed_front, crate::proofs::UseLaws::keyed_none))]
fn converse<O: Outside>(
    alloc: Global,
    config: &Config,
    lines: &List<List<u8>>,
    usage: Usage,
    outside: &mut O,
) -> Result<(), Stop>
    requires { EachFits IsCall lines.now }
    ensures answered { OnOk result (Keyed config.now usage (O.told outside.old)
        (λ client start. Answered lines.now client usage.turns start (O.told outside.new))) }
    ensures unanswered { result ≡ Err Stop.NoReply → Keyed config.now usage
        (O.told outside.old) (λ client start. Unanswered lines.now client usage.turns start
        (O.told outside.new)) }
    ensures lost { result ≡ Err Stop.SessionLost → Keyed config.now usage
        (O.told outside.old) (λ client start. Ended IsLost lines.now client usage.turns start
        (O.told outside.new)) }
    ensures full { result ≡ Err Stop.DaemonFull → Keyed config.now usage
        (O.told outside.old) (λ client start. Ended IsFull lines.now client usage.turns start
        (O.told outside.new)) }
    ensures failing { result ≡ Err Stop.LinkFault → Keyed config.now usage
        (O.told outside.old)
        (λ client start. Failing lines.now client usage.turns start (O.told outside.new)) }
    ensures ever { Keyed config.now usage (O.told outside.old)
        (λ client start. Front lines.now client usage.turns start (O.told outside.new)) }
    ensures written { result ≡ Err Stop.WriteFault
        → EndsByWrite (O.told outside.new) }
    ensures failed { result ≡ Err Stop.LinkFault
        → EndsByReceive (O.told outside.new) }
    ensures stops { IfErr result StopsClient }
{
    let key = key_of(usage.key, outside);
    let mut room = buffer(alloc)?;
    let mut client = first_client(alloc, config, usage.node, key);
    client.take_turns(alloc, usage.turns, lines, room.as_mut_slice(), outside)
}

/// Uses a daemon as a client on another machine, which makes these calls, each a line of 1 to 1,100 bytes. It tells the
/// link where all adapters of the settings are, and opens it at a port that is free. Its key is that of `usage`; where
/// that names none it reads the clock, whose low 32 bits are the key. In each turn it makes the next call where the last
/// one has its answer, sends its Up, and receives once. An answer is written as `did K taken` or `did K refused`, before
/// the events that come with it, each a line.
///
/// `NoReply` where a call has no answer after the last turn; `SessionLost` where a Down of another incarnation of the
/// daemon came, and `DaemonFull` where one said that the daemon keeps no more keys: each ends it; `LinkFault` where the
/// link could not be opened, or 16 receives in a row failed; `WriteFault` where a write failed; `NoMemory` where memory
/// has run out; and no other `Stop` (`stops`).
#[tactic(auto, using(link_use::proofs::OpenLaws::over_link, link_use::proofs::OpenLaws::not_opened, link_use::proofs::OpenLaws::ran, link_use::proofs::OpenLaws::rose_closed, crate::proofs::UseLaws::rose_writing, crate::proofs::UseLaws::rose_receiving))]
pub fn use_daemon<O: Outside>(
    alloc: Global,
    config: &Config,
    lines: &List<List<u8>>,
    usage: Usage,
    outside: &mut O,
) -> Result<(), Stop>
    requires ports { config.now.port + 32 ≤ 65535 }
    requires calls { EachFits IsCall lines.now }
    ensures answered { OnOk result (OverLink config.now 0 (O.told outside.old) (λ opened.
        Keyed config.now usage opened (λ client start. Answered lines.now client usage.turns
        start (O.told outside.new)))) }
    ensures unanswered { result ≡ Err Stop.NoReply → OverLink config.now 0
        (O.told outside.old) (λ opened. Keyed config.now usage opened (λ client start.
        Unanswered lines.now client usage.turns start (O.told outside.new))) }
    ensures lost { result ≡ Err Stop.SessionLost → OverLink config.now 0
        (O.told outside.old) (λ opened. Keyed config.now usage opened (λ client start.
        Ended IsLost lines.now client usage.turns start (O.told outside.new))) }
    ensures full { result ≡ Err Stop.DaemonFull → OverLink config.now 0
        (O.told outside.old) (λ opened. Keyed config.now usage opened (λ client start.
        Ended IsFull lines.now client usage.turns start (O.told outside.new))) }
    ensures failing { result ≡ Err Stop.LinkFault → OverLinkIf config.now 0
        (O.told outside.old) (O.told outside.new) (λ opened. Keyed config.now usage opened
        (λ client start. Failing lines.now client usage.turns start (O.told outside.new))) }
    ensures ever { OverLinkIf config.now 0 (O.told outside.old) (O.told outside.new) (λ opened.
        Keyed config.now usage opened (λ client start. Front lines.now client usage.turns
        start (O.told outside.new))) }
    ensures fault { result ≡ Err Stop.WriteFault
        → Rose (O.told outside.old).write_faults (O.told outside.new).write_faults }
    ensures failed { result ≡ Err Stop.LinkFault
        → Rose (O.told outside.old).link_faults (O.told outside.new).link_faults }
    ensures stops { IfErr result StopsClient }
{
    if !open_link(outside, config, 0) {
        return Err(Stop::LinkFault);
    }
    converse(alloc, config, lines, usage, outside)
}
