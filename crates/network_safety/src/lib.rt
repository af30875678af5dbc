//! Every network of daemons is safe.
#![tactic(auto)]

ghost use Rattle.network_safety.specs.Safe.{NetworksOfDaemonsAreSafe, ExecutionsAreSafe};
ghost use Rattle.network_safety.specs.Rings.{SettingsFit, RingsOfDaemonsAgree};
ghost use Rattle.network_safety.specs.Served.{ServedDaemonsAreSafe};
ghost use Rattle.std.specs.Prelude.{◌≡◌};
ghost use Rattle.daemon_model.specs.Daemon.{records_text};
ghost use Rattle.network_model.specs.Network.{no_net};
ghost use Rattle.network_model.specs.Samples.{pair, starts_again};
ghost use Rattle.network_safety.specs.Logs.{logged, NodesLogTheirLives, LogsOfDaemonsAreSeen, LogsOfExecutionsAreSeen, LogsOfServedAreSeen, logged_again_lines};
ghost use Rattle.network_safety.specs.Strangers.{StrangersChangeNothing, OtherDomainsAreUnused};
ghost use Rattle.network_safety.specs.Gone.{ClientsOfEndedKeysAreGone, NamesStayFree};

/// Let daemons start, each of its node in a greater incarnation than those before and where no other of it is up; let each
/// receive bring what was sent before it, or what is no piece, or what a client asks; and let all have the same settings.
/// Then their records, in the order of their acts, are those of a run of a world, and that run is safe.
#[tactic(auto, using(crate::proofs::Law::networks_of_daemons_are_safe))]
pub fn networks_of_daemons_are_safe()
    ensures { NetworksOfDaemonsAreSafe }
{}

/// So daemons are safe together whatever they do and whenever, up to now, as long as no datagram is received before it is
/// sent: their acts have an order, that of their times, in which they are a network's run.
#[tactic(auto, using(crate::proofs::Law::executions_are_safe))]
pub fn executions_are_safe<T>()
    ensures { ExecutionsAreSafe T }
{}

/// So are daemons that `serve` runs over links that tell, at any moment: their records, which are what they wrote the lines
/// of, are those of a safe run.
#[tactic(auto, using(crate::proofs::Law::served_daemons_are_safe))]
pub fn served_daemons_are_safe<T>()
    ensures { ServedDaemonsAreSafe T }
{}

/// The addresses of settings that a daemon reads differ, on each network: so the rings of each network agree.
pub fn rings_of_daemons_agree()
    ensures fit { SettingsFit }
    ensures agree { RingsOfDaemonsAgree }
{}

/// Bytes that are no packet, a packet to another node, and a group's packet that is not used, as one of another domain, change
/// nothing at the node of a daemon, which sends and records nothing for them.
#[tactic(auto, using(crate::proofs::Strangers::strangers_change_nothing, crate::proofs::Strangers::other_domains_are_unused))]
pub fn strangers_change_nothing()
    ensures nothing { StrangersChangeNothing }
    ensures domain { OtherDomainsAreUnused }
{}

/// Where a key ends whose client has said no goodbye, its client is gone behind it: its name is free, each of its providers is
/// let go, and GONE is on its way to the leader of each one's group, if the node knows it and is not frozen. Nothing that a daemon
/// does of its own takes the name again.
pub fn clients_of_ended_keys_are_gone()
    ensures gone { ClientsOfEndedKeysAreGone }
    ensures free { NamesStayFree }
{}

/// What the daemons of a node write into their logs are the records of their lives, one after another.
#[tactic(auto, using(crate::proofs::OwnLogs::nodes_log_their_lives))]
pub fn nodes_log_their_lives()
    ensures { NodesLogTheirLives }
{}

/// The logs of the daemons of a network, merged in the order of its acts, show by themselves all that the records of a run show: they
/// are `Seen`, and so are the rings of each network whose addresses differ. They have neither a life of the incarnations that a node
/// skips, nor that a node goes down.
#[tactic(auto, using(crate::proofs::Logs::logs_of_daemons_are_seen))]
pub fn logs_of_daemons_are_seen()
    ensures { LogsOfDaemonsAreSeen }
{}

/// So do the logs of daemons of any execution, in each order of its acts that is a network's run; and of daemons that `serve` runs.
pub fn logs_of_executions_are_seen<T>()
    ensures spelled { LogsOfExecutionsAreSeen T }
    ensures served { LogsOfServedAreSeen T }
{}

/// Of an incarnation that a node skips, and of its end, nothing is logged.
#[tactic(auto, unfolding(crate::specs::Opens::logs_open))]
pub fn logs_no_skipped_life()
    ensures { records_text (logged pair no_net starts_again) ≡ logged_again_lines }
{}
