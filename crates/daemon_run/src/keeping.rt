//! What a daemon does of its own behind a tick of its node, as its options ask: keys that were silent for too long end, and
//! a node that was left behind asks for a view of its reach.
ghost use Rattle.std.specs.Prelude.{◌≡◌, ◌≤◌, OnOk, OnErr, IfOk, IfErr, IfSome, option_map};
ghost use Rattle.link_use.specs.Stops.{StopsBy};
ghost use Rattle.node_reach.specs.Reach.{reach_of};
ghost use Rattle.node_state.specs.Step.{Asks};
ghost use Rattle.remote_clients.specs.Clients.{IsPlain};
ghost use Rattle.remote_clients.specs.Ending.{session_ended};
ghost use Rattle.daemon_model.specs.Daemon.{goodbye_in};
ghost use Rattle.daemon_model.specs.Options.{keys_due, is_apart, apart_for, is_long_apart, is_pause};
ghost use Rattle.daemon_run.specs.Audience.{Attend};
ghost use Rattle.daemon_run.specs.Doing.{IsSame, StepsAs, StepBreaks, StepFails};
ghost use Rattle.daemon_run.specs.Keeping.{KeyEndsAs, KeyEndBreaks, KeyEndFails, KeysEnd, KeysBreak, KeysFail, OwnAs, OwnBreaks, OwnFails};

use crate::calls::Hosts;
use crate::running::Running;
use client_callbacks::Callbacks;
use daemon_model::Options;
use hags_io::Outside;
use link_use::Stop;
use node_core::NodeEvent;
use node_rings::{are_members, is_first};
use node_sending::is_frozen;
use node_state::{CallLine, Core};
use rsct_packet::{NoMemory, risen};
use std::alloc::Global;

/// Was the node left behind: does another one stand first in its reach, while it works in a view of other members, and
/// gathers nothing?
#[tactic(auto, unfolding(daemon_model::specs::Options::is_apart, node_state::specs::Settings::least_node))]
fn is_apart(core: &Core) -> bool
    ensures { result ≡ is_apart core.now }
{
    let reach = core.reach.reach();
    !is_frozen(core)
        && core.views.gathering.is_none()
        && !is_first(core.views.me, reach.first())
        && !are_members(core, reach)
}

/// At how many ticks in a row it was apart, with this one.
fn apart_for(mend: Option<u32>, ticks: u32, core: &Core) -> u32
    ensures { result ≡ apart_for mend ticks core.now }
{
    match mend {
        None => 0,
        Some(_) => if is_apart(core) { risen(ticks) } else { 0 },
    }
}

fn is_long_apart(mend: Option<u32>, ticks: u32) -> bool
    ensures { result ≡ is_long_apart mend ticks }
{
    match mend {
        None => false,
        Some(least) => ticks >= least,
    }
}

/// Does the daemon end at this moment, after that of the turn before?
pub(crate) fn is_pause(gap: Option<u32>, before: u64, moment: u64) -> bool
    ensures { result ≡ is_pause gap before moment }
{
    match gap {
        None => false,
        Some(gap) => moment.saturating_sub(before) >= u64::from(gap),
    }
}

impl<C: Callbacks> Running<C> {
    /// The keys that are due to end.
    fn keys_due(&self, alloc: Global, silence: Option<u32>) -> Result<Vec<u32>, NoMemory>
        ensures { IfOk result (λ keys. keys.items ≡ keys_due silence self.now.sessions) }
    {
        match silence {
            None => Ok(Vec::new(alloc)),
            Some(least) => match &self.sessions {
                None => Ok(Vec::new(alloc)),
                Some(sessions) => sessions.remote.silent(alloc, least),
            },
        }
    }

    /// The goodbye that the key owes.
    #[tactic(auto, using(crate::proofs::KeepLaws::goodbye_plain))]
    fn goodbye_in(&self, alloc: Global, key: u32) -> Result<Option<CallLine>, NoMemory>
        ensures call { IfOk result (λ call. call ≡ goodbye_in self.now.sessions key) }
        ensures plain { IfOk result (λ call. IfSome call IsPlain) }
    {
        match &self.sessions {
            None => Ok(None),
            Some(sessions) => sessions.clients.goodbye_owed(alloc, key),
        }
    }

    /// The key's session ends, and what is known of its client goes with it.
    fn forget(&mut self, alloc: Global, key: u32) -> Result<(), NoMemory>
        ensures gone { OnOk result (self.new ≡ record self.old
            { sessions = option_map (session_ended key) self.old.sessions }) }
        ensures same { IsSame self.old self.new }
    {
        if let Some(sessions) = &mut self.sessions {
            let _ended = sessions.end(alloc, key)?;
        }
        Ok(())
    }

    /// A key ends: the goodbye that it owes, if it owes one, is a step of the node.
    #[tactic(auto, using(crate::proofs::KeepLaws::over_done, crate::proofs::KeepLaws::over_unsaid, crate::proofs::KeepLaws::over_broke, crate::proofs::KeepLaws::over_late, crate::proofs::KeepLaws::over_none, crate::proofs::KeepLaws::over_fails))]
    fn end_key<H: Hosts<C>, O: Outside>(
        &mut self,
        alloc: Global,
        key: u32,
        hosts: &mut H,
        outside: &mut O,
    ) -> Result<(), Stop>
        requires { self.old.outbox.me ≤ 32 }
        ensures done { OnOk result (KeyEndsAs (Attend C.stands_for C.script) self.old self.new
            (O.told outside.old) (O.told outside.new) key) }
        ensures broke { OnErr result (KeyEndBreaks self.old (O.told outside.old)
            (O.told outside.new) key) }
        ensures unwritten { IfErr result (λ stop. stop ≡ Stop.WriteFault → KeyEndFails
            (Attend C.stands_for C.script) self.old self.new (O.told outside.old)
            (O.told outside.new) key) }
        ensures same { IsSame self.old self.new }
        ensures fault { IfErr result (StopsBy (O.told outside.new)) }
    {
        let Some(call) = self.goodbye_in(alloc, key)? else {
            self.forget(alloc, key)?;
            return Ok(());
        };
        let refused = self.carry_call(alloc, Some(key), &call, hosts, outside)?;
        self.finish(alloc, key, &call, !refused)?;
        self.forget(alloc, key)?;
        Ok(())
    }

    /// Keys end, one after another.
    #[tactic(auto, using(crate::proofs::KeepLaws::keys_begin, crate::proofs::KeepLaws::keys_next, crate::proofs::KeepLaws::keys_broke, crate::proofs::KeepLaws::keys_fail, crate::proofs::KeepLaws::keys_all))]
    fn end_keys<H: Hosts<C>, O: Outside>(
        &mut self,
        alloc: Global,
        keys: &[u32],
        hosts: &mut H,
        outside: &mut O,
    ) -> Result<(), Stop>
        requires { self.old.outbox.me ≤ 32 }
        ensures done { OnOk result (KeysEnd (Attend C.stands_for C.script) self.old self.new
            keys.now (O.told outside.old) (O.told outside.new)) }
        ensures broke { OnErr result (KeysBreak self.old keys.now (O.told outside.old)
            (O.told outside.new)) }
        ensures unwritten { IfErr result (λ stop. stop ≡ Stop.WriteFault → KeysFail
            (Attend C.stands_for C.script) self.old self.new keys.now (O.told outside.old)
            (O.told outside.new)) }
        ensures same { IsSame self.old self.new }
        ensures fault { IfErr result (StopsBy (O.told outside.new)) }
    {
        for key in keys {
            self.end_key(alloc, *key, hosts, outside)?;
        }
        Ok(())
    }

    /// The order to ask for a view of its reach is a step of the node.
    #[tactic(auto, using(crate::proofs::KeepLaws::asked_done, crate::proofs::KeepLaws::asked_broke, crate::proofs::KeepLaws::asked_fails))]
    fn mend<O: Outside>(&mut self, alloc: Global, outside: &mut O) -> Result<(), Stop>
        requires { self.old.outbox.me ≤ 32 }
        ensures done { OnOk result (StepsAs (Attend C.stands_for C.script)
            (Attend C.stands_for C.script) None self.old self.new (O.told outside.old)
            (O.told outside.new) (Asks (reach_of self.old.node.core.reach))) }
        ensures broke { OnErr result (StepBreaks None self.old (O.told outside.old)
            (O.told outside.new) (Asks (reach_of self.old.node.core.reach))) }
        ensures unwritten { IfErr result (λ stop. stop ≡ Stop.WriteFault → StepFails
            (Attend C.stands_for C.script) (Attend C.stands_for C.script) None self.old self.new
            (O.told outside.old) (O.told outside.new)
            (Asks (reach_of self.old.node.core.reach))) }
        ensures same { IsSame self.old self.new }
        ensures fault { IfErr result (StopsBy (O.told outside.new)) }
    {
        let reach = self.node.core().reach.reach();
        self.step(alloc, NodeEvent::Ask(reach), outside)?;
        Ok(())
    }

    /// What the options ask of a daemon behind a tick of its node, which was apart at so many ticks in a row before.
    /// Answers at how many it is now.
    #[tactic(auto, using(crate::proofs::KeepLaws::own_done, crate::proofs::KeepLaws::own_mended, crate::proofs::KeepLaws::own_none, crate::proofs::KeepLaws::own_broke, crate::proofs::KeepLaws::own_unmended, crate::proofs::KeepLaws::own_fails, crate::proofs::KeepLaws::own_fails_mending))]
    pub(crate) fn keep<H: Hosts<C>, O: Outside>(
        &mut self,
        alloc: Global,
        options: Options,
        ticks: u32,
        hosts: &mut H,
        outside: &mut O,
    ) -> Result<u32, Stop>
        requires { self.old.outbox.me ≤ 32 }
        ensures done { IfOk result (λ left. OwnAs (Attend C.stands_for C.script) options ticks
            left self.old self.new (O.told outside.old) (O.told outside.new)) }
        ensures broke { OnErr result (OwnBreaks options ticks self.old (O.told outside.old)
            (O.told outside.new)) }
        ensures unwritten { IfErr result (λ stop. stop ≡ Stop.WriteFault → OwnFails
            (Attend C.stands_for C.script) options ticks self.old self.new
            (O.told outside.old) (O.told outside.new)) }
        ensures same { IsSame self.old self.new }
        ensures fault { IfErr result (StopsBy (O.told outside.new)) }
    {
        let keys = self.keys_due(alloc, options.silence)?;
        self.end_keys(alloc, keys.as_slice(), hosts, outside)?;
        let now = apart_for(options.mend, ticks, self.node.core());
        if !is_long_apart(options.mend, now) {
            return Ok(now);
        }
        self.mend(alloc, outside)?;
        Ok(0)
    }
}
