//! A daemon: its start, the calls of its settings, and its turns.
ghost use Rattle.std.specs.Prelude.{◌≡◌, ◌≢◌, ◌≤◌, ◌+◌, ◌⊎◌, false, None, IfOk, IfErr, IfSome, IsSomeAnd, OnOk, OnErr, Err};
ghost use Rattle.hags_io.specs.Edges.{Rose};
ghost use Rattle.hags_io.specs.Fronts.{EndsByWrite, EndsByReceive};
ghost use Rattle.hags_io.specs.Telling.{Did};
ghost use Rattle.link_use.specs.Stops.{StopsBy, StopsDaemon};
ghost use Rattle.node_state.specs.Step.{at_work};
ghost use Rattle.daemon_model.specs.Daemon.{sessions_if, tells_entries};
ghost use Rattle.daemon_model.specs.Settings.{openings, OverLink, OverLinkIf};
ghost use Rattle.daemon_model.specs.Lives.{ServesAs, ServesTo, ServesToPause, ServesFront};
ghost use Rattle.daemon_run.specs.Doing.{IsSame};
ghost use Rattle.daemon_run.specs.Calling.{BeginsAs, BeginBreaks, BeginFails, fresh_running};
ghost use Rattle.daemon_run.specs.Audience.{AttendWith};
ghost use Rattle.daemon_run.specs.Ends.{LeftBy, left_of};

use crate::calls::Hosts;
use crate::hosted::Hosted;
use crate::running::Running;
use client_callbacks::Callbacks;
use daemon_model::{Options, RemoteService};
use hags_io::Outside;
use link_use::{Outbox, Receiving, Stop, open_link};
use node_core::Node;
use remote_clients::Sessions;
use rsct_packet::NoMemory;
use std::alloc::Global;
use world_model::Script;

/// Which daemon it is, and how long it runs: the number of its node (1 to 32), its incarnation and how many turns it
/// does (each at least 1); and its options, with what it tells of itself.
#[derive(Clone, Copy, Debug, PartialEq, Eq)]
pub struct Serving {
    pub me: u8,
    pub incarnation: u32,
    pub turns: u64,
    pub options: Options,
}

/// How a daemon ended, and what is left of it: its node with its clients. There is none where the link could not be opened
/// or memory ran out: what clients of a node had heard that had no memory in the middle of a step is not known.
#[derive(Drop)]
pub struct Outcome<C: Callbacks> {
    pub node: Option<Node<Hosted<C>>>,
    pub end: Result<(), Stop>,
}

/// The sessions of clients on other machines, where they are served.
fn sessions_if(alloc: Global, serving: Serving) -> Option<Sessions>
    ensures { result ≡ sessions_if serving.options.service.remote serving.incarnation }
{
    match serving.options.service.remote {
        RemoteService::Off => None,
        RemoteService::On { .. } => Some(Sessions::new(alloc, serving.incarnation)),
    }
}

/// Are clients on other machines told the lines of entries?
fn tells_entries(remote: RemoteService) -> bool
    ensures { result ≡ tells_entries remote }
{
    match remote {
        RemoteService::Off => false,
        RemoteService::On { entries } => entries,
    }
}

/// A daemon whose node has just started.
fn started<C: Callbacks>(
    alloc: Global,
    script: &Script,
    serving: Serving,
    moment: u64,
) -> Result<Running<C>, NoMemory>
    ensures { IfOk result (λ r. r ≡ fresh_running serving.options.service script.now.config
        serving.me serving.incarnation moment) }
{
    Ok(Running {
        outbox: Outbox {
            me: serving.me,
            incarnation: serving.incarnation,
            number: 1,
        },
        node: Node::start(alloc, script.config, serving.me, serving.incarnation)?,
        receiving: Receiving::new(),
        last: moment,
        sessions: sessions_if(alloc, serving),
        entries: tells_entries(serving.options.service.remote),
        about: serving.options.service.about,
        ticks: 0,
        sent: 0,
    })
}

impl<C: Callbacks> Running<C> {
    /// What the node recorded at its start is written, and the calls of the settings are carried out.
    fn begin<H: Hosts<C>, O: Outside>(
        &mut self,
        alloc: Global,
        script: &Script,
        serving: Serving,
        hosts: &mut H,
        outside: &mut O,
    ) -> Result<(), Stop>
        requires within { self.old.outbox.me ≤ 32 }
        requires fresh { self.old ≡ fresh_running serving.options.service script.now.config
            serving.me serving.incarnation self.old.last }
        ensures done { OnOk result (BeginsAs
            (AttendWith (H.stand hosts.old) C.stands_for C.script)
            (AttendWith (H.stand hosts.new) C.stands_for C.script) serving.options.service
            script.now serving.me serving.incarnation self.old.last self.new
            (O.told outside.old) (O.told outside.new)) }
        ensures broke { OnErr result (BeginBreaks serving.options.service script.now serving.me
            serving.incarnation self.old.last (O.told outside.old) (O.told outside.new)) }
        ensures unwritten { IfErr result (λ stop. stop ≡ Stop.WriteFault → BeginFails
            (AttendWith (H.stand hosts.old) C.stands_for C.script)
            (AttendWith (H.stand hosts.new) C.stands_for C.script) serving.options.service
            script.now serving.me serving.incarnation self.old.last self.new
            (O.told outside.old) (O.told outside.new)) }
        ensures same { IsSame self.old self.new }
        ensures fault { IfErr result (StopsBy (O.told outside.new)) }
    {
        let _refused = self.settle(alloc, None, outside)?;
        self.carry_lines(alloc, script.lines.as_slice(), hosts, outside)
    }

    /// Its node, where it ended so. Where memory ran out the node is let go.
    fn left(self, end: Result<(), Stop>) -> Option<Node<Hosted<C>>>
        ensures { result ≡ left_of end self.node }
    {
        let Running { node, .. } = self;
        match end {
            Err(Stop::NoMemory) => None,
            _ => Some(node),
        }
    }
}

/// The whole life of a daemon whose link is open.
#[tactic(auto, using(crate::proofs::EndLaws::fresh_at, crate::proofs::EndLaws::read_at, crate::proofs::CallLaws::begins_none, crate::proofs::EndLaws::serves_begun, crate::proofs::EndLaws::serves_to, crate::proofs::EndLaws::serves_to_pause, crate::proofs::EndLaws::serves_front, link_use::proofs::StopLaws::stops_daemon))]
fn live<C: Callbacks, H: Hosts<C>, O: Outside>(
    alloc: Global,
    script: &Script,
    serving: Serving,
    hosts: &mut H,
    outside: &mut O,
) -> Outcome<C>
    requires { serving.me ≤ 32 }
    ensures served { OnOk result.end (IsSomeAnd result.node (λ node. ServesAs script.now serving.me
        serving.incarnation serving.options serving.turns (at_work node.core)
        (O.told outside.old) (O.told outside.new))) }
    ensures left { IfSome result.node (λ node. LeftBy (H.stand hosts.old) C.stands_for C.script
        script.now serving.me serving.incarnation serving.options serving.turns
        result.end node (O.told outside.old) (O.told outside.new)) }
    ensures kept { result.node ≡ None → result.end ≡ Err Stop.NoMemory }
    ensures ended { result.end ≡ Err Stop.LinkFault → ServesTo script.now serving.me
        serving.incarnation serving.options serving.turns (O.told outside.old)
        (O.told outside.new) }
    ensures paused { result.end ≡ Err Stop.Paused → ServesToPause script.now serving.me
        serving.incarnation serving.options serving.turns (O.told outside.old)
        (O.told outside.new) }
    ensures ever { result.end ≢ Err Stop.Paused → ServesFront script.now serving.me
        serving.incarnation serving.options serving.turns (O.told outside.old)
        (O.told outside.new) }
    ensures written { result.end ≡ Err Stop.WriteFault → EndsByWrite (O.told outside.new) }
    ensures failed { result.end ≡ Err Stop.LinkFault → EndsByReceive (O.told outside.new) }
    ensures stops { IfErr result.end StopsDaemon }
{
    let moment = outside.now();
    let Ok(mut running) = started::<C>(alloc, script, serving, moment) else {
        return Outcome {
            node: None,
            end: Err(Stop::NoMemory),
        };
    };
    let start = running.last;
    match running.begin(alloc, script, serving, hosts, outside) {
        Ok(()) => {
            let end = running.serve_turns(
                alloc,
                serving.options,
                start,
                serving.turns,
                hosts,
                outside,
            );
            Outcome {
                node: running.left(end),
                end,
            }
        }
        Err(stop) => {
            Outcome {
                node: running.left(Err(stop)),
                end: Err(stop),
            }
        }
    }
}

/// Runs a daemon of the node `serving.me` for `serving.turns` turns. It tells the link where all adapters of the
/// settings are, each at `port` plus its node; opens it at its own port; reads the clock, which is the moment of its
/// start; starts its node; carries out the settings' calls of its own clients, each of which `hosts` gives for its
/// votes word (`Objects` gives the next of its objects where the word is `boxed`); and does its turns, each with one
/// reading of the clock, a tick where 100 milliseconds have passed since the last one, and one receive. Of each step the
/// line of each record is written first; then what the node sends goes out in pieces, and a send that fails is a lost
/// packet.
///
/// Behind a tick of the node the options are looked after: keys that were silent for as many ticks as `silence` end, and
/// where the node was apart for as many ticks in a row as `mend` it asks for a view of its reach.
///
/// It ends (`end`) by `LinkFault` where the link could not be opened, or 16 receives in a row failed; by `Paused` at a
/// moment that is `gap` milliseconds or more above that of the turn before, or of the start, of which turn nothing else was
/// done; by `WriteFault` where a write failed; and by `NoMemory` where memory has run out; and by no other `Stop` (`stops`).
/// However it ends, what was done is a front of the doings of a life (`crates/daemon_model`), in their order, which does of
/// its own just what the options ask; after all turns, at `LinkFault`, or up to the pause, all of them (`ever`, `served`,
/// `link`, `paused`).
///
/// It gives its node back where it did all its turns or broke off by a fault of the output or of receives (`kept`). Each
/// client of the node's sessions stands for its own list then (`left`): that of the k-th line whose word is `boxed` for the
/// list for which the k-th object of `hosts` stood, whatever the others stood for, and any other for an empty one; each with
/// the notices and tellings behind it that the run handed to that client up to there, in order, and the ballots that it
/// filled. At `WriteFault` these are those of all acts up to the one whose lines could not be written, and of that act too:
/// it has happened to the node. Of an object of which no list is known nothing is said. Just the clients of those lines vote
/// by no items, so that no other client stands in place of an object. At `NoMemory` nothing is said of what clients heard,
/// and the node is let go.
#[tactic(auto, using(link_use::proofs::OpenLaws::over_link, link_use::proofs::OpenLaws::not_opened, link_use::proofs::OpenLaws::ran, link_use::proofs::OpenLaws::rose_closed))]
pub fn serve<C: Callbacks, H: Hosts<C>, O: Outside>(
    alloc: Global,
    script: &Script,
    serving: Serving,
    hosts: &mut H,
    outside: &mut O,
) -> Outcome<C>
    requires node { serving.me ≤ 32 }
    requires ports { script.now.config.port + 32 ≤ 65535 }
    ensures served { OnOk result.end (IsSomeAnd result.node (λ node. OverLink script.now.config
        (script.now.config.port + serving.me) (O.told outside.old) (λ opened. ServesAs script.now
        serving.me serving.incarnation serving.options serving.turns (at_work node.core)
        opened (O.told outside.new)))) }
    ensures left { IfSome result.node (λ node. OverLink script.now.config
        (script.now.config.port + serving.me) (O.told outside.old) (λ opened. LeftBy
        (H.stand hosts.old) C.stands_for C.script script.now serving.me serving.incarnation
        serving.options serving.turns result.end node opened (O.told outside.new))) }
    ensures kept { result.node ≡ None → (result.end ≡ Err Stop.NoMemory)
        ⊎ ((result.end ≡ Err Stop.LinkFault) × Did (O.told outside.old) (O.told outside.new)
        (openings script.now.config (script.now.config.port + serving.me) false)) }
    ensures link { result.end ≡ Err Stop.LinkFault → OverLinkIf script.now.config
        (script.now.config.port + serving.me) (O.told outside.old) (O.told outside.new)
        (λ opened. ServesTo script.now serving.me serving.incarnation serving.options
        serving.turns opened (O.told outside.new)) }
    ensures paused { result.end ≡ Err Stop.Paused → OverLink script.now.config
        (script.now.config.port + serving.me) (O.told outside.old) (λ opened. ServesToPause
        script.now serving.me serving.incarnation serving.options serving.turns opened
        (O.told outside.new)) }
    ensures ever { result.end ≢ Err Stop.Paused → OverLinkIf script.now.config
        (script.now.config.port + serving.me) (O.told outside.old) (O.told outside.new)
        (λ opened. ServesFront script.now serving.me
        serving.incarnation serving.options serving.turns opened (O.told outside.new)) }
    ensures memory { result.end ≡ Err Stop.NoMemory → OverLink script.now.config
        (script.now.config.port + serving.me) (O.told outside.old) (λ opened. ServesFront
        script.now serving.me serving.incarnation serving.options serving.turns opened
        (O.told outside.new)) }
    ensures written { result.end ≡ Err Stop.WriteFault → OverLink script.now.config
        (script.now.config.port + serving.me) (O.told outside.old) (λ opened. ServesFront
        script.now serving.me serving.incarnation serving.options serving.turns opened
        (O.told outside.new)) }
    ensures write_fault { result.end ≡ Err Stop.WriteFault
        → Rose (O.told outside.old).write_faults (O.told outside.new).write_faults }
    ensures link_fault { result.end ≡ Err Stop.LinkFault
        → Rose (O.told outside.old).link_faults (O.told outside.new).link_faults }
    ensures stops { IfErr result.end StopsDaemon }
{
    let port = script.config.port + u16::from(serving.me);
    if !open_link(outside, &script.config, port) {
        return Outcome {
            node: None,
            end: Err(Stop::LinkFault),
        };
    }
    live::<C, H, O>(alloc, script, serving, hosts, outside)
}
