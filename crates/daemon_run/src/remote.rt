//! What comes from clients on other machines, and from who asks a daemon about itself.
ghost use Rattle.std.specs.Prelude.{◌≡◌, ◌≤◌, OnOk, OnErr, IfOk, IfErr, IfSome, Some, [], option_map};
ghost use Rattle.link_use.specs.Stops.{StopsBy};
ghost use Rattle.remote_session.specs.Daemon.{seen_up};
ghost use Rattle.remote_clients.specs.Clients.{IsPlain};
ghost use Rattle.remote_clients.specs.Sessions.{finished, turned_down};
ghost use Rattle.daemon_model.specs.Daemon.{up_in, call_in, down_in, counts_of};
ghost use Rattle.daemon_run.specs.Audience.{Attend};
ghost use Rattle.daemon_run.specs.Doing.{IsSame, is_up_taken, Sends, SendsFront, CallsKey, CallKeyBreaks, CallKeyFails, BringsAs, BringBreaks, BringFails, daemon_of, reply_in, GivesAs, GiveBreaks, GiveFails};

use crate::calls::Hosts;
use crate::running::Running;
use client_callbacks::Callbacks;
use daemon_model::Counts;
use hags_io::Outside;
use link_use::{Receiver, Stop};
use node_core::NodeEvent;
use node_state::CallLine;
use remote_session::UpSeen;
use rsct_packet::{Member, NoMemory};
use self_lines::{put_clients, put_daemon};
use self_questions::{SelfQuestion, SelfWhat, put_reply_head, read_question};
use std::alloc::Global;

impl<C: Callbacks> Running<C> {
    /// The sessions take a message, which may be an Up; where none are served it is none.
    fn take_up<'a>(&mut self, alloc: Global, message: &'a [u8]) -> Result<UpSeen<'a>, NoMemory>
        ensures seen { IfOk result (λ seen. seen_up seen
            ≡ up_in self.old.sessions message.entry.now) }
        ensures taken { OnOk result (self.new ≡ is_up_taken self.old message.entry.now) }
        ensures same { IsSame self.old self.new }
    {
        match &mut self.sessions {
            None => Ok(UpSeen::NoMessage),
            Some(sessions) => sessions.remote.up(alloc, message),
        }
    }

    /// The call of the node that a key's line is, if it is one.
    fn call_in(&self, alloc: Global, key: u32, line: &[u8]) -> Result<Option<CallLine>, NoMemory>
        ensures call { IfOk result (λ call. call
            ≡ call_in self.now.sessions self.now.outbox.me key line.now) }
        ensures plain { IfOk result (λ call. IfSome call IsPlain) }
    {
        match &self.sessions {
            None => Ok(None),
            Some(sessions) => sessions.call(alloc, self.outbox.me, key, line),
        }
    }

    /// A line of the key is refused without a step.
    fn turn_down(&mut self, key: u32)
        ensures down { self.new ≡ record self.old
            { sessions = option_map (turned_down key) self.old.sessions } }
        ensures same { IsSame self.old self.new }
    {
        if let Some(sessions) = &mut self.sessions {
            sessions.turn_down(key);
        }
    }

    /// A call of the key was a step, in which it was taken or refused.
    pub(crate) fn finish(
        &mut self,
        alloc: Global,
        key: u32,
        call: &CallLine,
        taken: bool,
    ) -> Result<(), NoMemory>
        ensures done { OnOk result (self.new ≡ record self.old
            { sessions = option_map (finished key call.now taken) self.old.sessions }) }
        ensures same { IsSame self.old self.new }
    {
        match &mut self.sessions {
            None => Ok(()),
            Some(sessions) => sessions.finish(alloc, key, call, taken),
        }
    }

    /// The line of a key: a call of the node, or refused without a step.
    #[tactic(auto, using(crate::proofs::RemoteLaws::line_refused, crate::proofs::RemoteLaws::line_done, crate::proofs::RemoteLaws::line_broke, crate::proofs::RemoteLaws::line_fails, crate::proofs::RemoteLaws::line_late, crate::proofs::RemoteLaws::line_none))]
    fn carry_key_line<H: Hosts<C>, O: Outside>(
        &mut self,
        alloc: Global,
        key: u32,
        line: &[u8],
        hosts: &mut H,
        outside: &mut O,
    ) -> Result<(), Stop>
        requires { self.old.outbox.me ≤ 32 }
        ensures done { OnOk result (CallsKey (Attend C.stands_for C.script) self.old self.new
            (O.told outside.old) (O.told outside.new) key line.now) }
        ensures broke { OnErr result (CallKeyBreaks self.old (O.told outside.old)
            (O.told outside.new) key line.now) }
        ensures unwritten { IfErr result (λ stop. stop ≡ Stop.WriteFault → CallKeyFails
            (Attend C.stands_for C.script) self.old self.new (O.told outside.old)
            (O.told outside.new) key line.now) }
        ensures same { IsSame self.old self.new }
        ensures fault { IfErr result (StopsBy (O.told outside.new)) }
    {
        let Some(call) = self.call_in(alloc, key, line)? else {
            self.turn_down(key);
            return Ok(());
        };
        let refused = self.carry_call(alloc, Some(key), &call, hosts, outside)?;
        self.finish(alloc, key, &call, !refused)?;
        Ok(())
    }

    /// The Down of a key, as it is now; nothing where no clients on other machines are served.
    fn down_in(&self, alloc: Global, key: u32) -> Result<Vec<u8>, NoMemory>
        ensures { IfOk result (λ down. down.items ≡ down_in self.now.sessions key) }
    {
        let mut down = Vec::new(alloc);
        if let Some(sessions) = &self.sessions {
            sessions.remote.down(key, &mut down)?;
        }
        Ok(down)
    }

    /// A message that is no packet goes to the sender of the datagram that came last, on this network.
    #[tactic(auto, using(crate::proofs::RemoteLaws::back_done, crate::proofs::RemoteLaws::back_front))]
    fn send_back<O: Outside>(
        &mut self,
        alloc: Global,
        message: &[u8],
        network: u8,
        outside: &mut O,
    ) -> Result<(), NoMemory>
        requires { self.old.outbox.me ≤ 32 }
        ensures done { OnOk result (Sends self.old self.new (O.told outside.old)
            (O.told outside.new) network message.now) }
        ensures broke { OnErr result (SendsFront self.old (O.told outside.old)
            (O.told outside.new) network message.now) }
        ensures same { IsSame self.old self.new }
    {
        let to = Receiver { node: 0, network };
        let sent = self.outbox.send_message(alloc, to, message, outside)?;
        let total = self.sent.saturating_add(sent);
        self.sent = total;
        Ok(())
    }

    /// The Down of a key goes to the sender of the datagram that came last, on this network.
    #[tactic(auto, using(crate::proofs::RemoteLaws::same_done, crate::proofs::RemoteLaws::same_front, daemon_model::proofs::MadeLaws::none_made))]
    fn send_down<O: Outside>(
        &mut self,
        alloc: Global,
        key: u32,
        network: u8,
        outside: &mut O,
    ) -> Result<(), NoMemory>
        requires { self.old.outbox.me ≤ 32 }
        ensures done { OnOk result (Sends self.old self.new (O.told outside.old)
            (O.told outside.new) network (down_in self.old.sessions key)) }
        ensures broke { OnErr result (SendsFront self.old (O.told outside.old)
            (O.told outside.new) network (down_in self.old.sessions key)) }
        ensures same { IsSame self.old self.new }
    {
        let down = self.down_in(alloc, key)?;
        self.send_back(alloc, down.as_slice(), network, outside)?;
        Ok(())
    }

    /// What it counted up to now.
    fn counts(&self) -> Counts
        ensures { result ≡ counts_of (daemon_of self.now [] []) }
    {
        let (keys, ended) = match &self.sessions {
            None => (0, 0),
            Some(sessions) => (sessions.remote.kept_count(), sessions.remote.ended_count()),
        };
        Counts {
            ticks: self.ticks,
            receives: self.receiving.counts,
            sent: self.sent,
            keys,
            ended,
        }
    }

    /// What it replies to a question about itself, as it is now.
    #[tactic(auto, unfolding(self_questions::specs::Messages::reply_text, daemon_model::specs::Daemon::self_text))]
    fn reply_in(&self, alloc: Global, question: SelfQuestion) -> Result<Vec<u8>, NoMemory>
        ensures { IfOk result (λ reply. reply.items ≡ reply_in self.now question) }
    {
        let mut reply = Vec::new(alloc);
        put_reply_head(&mut reply, question)?;
        match question.what {
            SelfWhat::Hagscl => {
                put_clients(
                    &self.sessions,
                    alloc,
                    &mut reply,
                    &self.node.core().sessions,
                )?;
            }
            SelfWhat::Hagsd => {
                let me = Member {
                    node: self.outbox.me,
                    inc: self.outbox.incarnation,
                };
                put_daemon(&mut reply, me, self.about, self.counts())?;
            }
        }
        Ok(reply)
    }

    /// It replies to a question about itself, on the network on which that came. Its node makes no step.
    #[tactic(auto, using(crate::proofs::RemoteLaws::same_done, crate::proofs::RemoteLaws::same_front, daemon_model::proofs::MadeLaws::none_made))]
    fn tell_of_itself<O: Outside>(
        &mut self,
        alloc: Global,
        question: SelfQuestion,
        network: u8,
        outside: &mut O,
    ) -> Result<(), NoMemory>
        requires { self.old.outbox.me ≤ 32 }
        ensures done { OnOk result (Sends self.old self.new (O.told outside.old)
            (O.told outside.new) network (reply_in self.old question)) }
        ensures broke { OnErr result (SendsFront self.old (O.told outside.old)
            (O.told outside.new) network (reply_in self.old question)) }
        ensures same { IsSame self.old self.new }
    {
        let reply = self.reply_in(alloc, question)?;
        self.send_back(alloc, reply.as_slice(), network, outside)?;
        Ok(())
    }

    /// A message that asks it nothing about itself: an Up of a client on another machine, where those are served, after
    /// which its Down is sent; or one for the node.
    #[tactic(auto, using(crate::proofs::RemoteLaws::give_done, crate::proofs::RemoteLaws::give_broke, crate::proofs::RemoteLaws::known_done, crate::proofs::RemoteLaws::ended_done, crate::proofs::RemoteLaws::full_done, crate::proofs::RemoteLaws::call_done, crate::proofs::RemoteLaws::call_broke_off, crate::proofs::RemoteLaws::give_fails, crate::proofs::RemoteLaws::call_fails_in, crate::proofs::RemoteLaws::give_none))]
    fn bring<H: Hosts<C>, O: Outside>(
        &mut self,
        alloc: Global,
        message: &[u8],
        network: u8,
        hosts: &mut H,
        outside: &mut O,
    ) -> Result<(), Stop>
        requires { self.old.outbox.me ≤ 32 }
        ensures done { OnOk result (BringsAs (Attend C.stands_for C.script) self.old self.new
            (O.told outside.old) (O.told outside.new) network message.now) }
        ensures broke { OnErr result (BringBreaks self.old (O.told outside.old)
            (O.told outside.new) network message.now) }
        ensures unwritten { IfErr result (λ stop. stop ≡ Stop.WriteFault → BringFails
            (Attend C.stands_for C.script) self.old self.new (O.told outside.old)
            (O.told outside.new) network message.now) }
        ensures same { IsSame self.old self.new }
        ensures fault { IfErr result (StopsBy (O.told outside.new)) }
    {
        let key = match self.take_up(alloc, message)? {
            UpSeen::NoMessage => {
                return self.step(alloc, NodeEvent::Datagram(message), outside);
            }
            UpSeen::Ended(key) => key,
            UpSeen::Full(key, _) => key,
            UpSeen::Known(key) => key,
            UpSeen::Call { key, line } => {
                self.carry_key_line(alloc, key, line, hosts, outside)?;
                key
            }
        };
        self.send_down(alloc, key, network, outside)?;
        Ok(())
    }

    /// A whole message that came on this network: a question about itself, whomever it serves; an Up of a client on another
    /// machine, where those are served, after which its Down is sent; or one for the node.
    #[tactic(auto, using(crate::proofs::AskLaws::asked_done, crate::proofs::AskLaws::asked_broke, crate::proofs::AskLaws::other_done, crate::proofs::AskLaws::other_broke, crate::proofs::AskLaws::other_fails))]
    pub(crate) fn give<H: Hosts<C>, O: Outside>(
        &mut self,
        alloc: Global,
        message: &[u8],
        network: u8,
        hosts: &mut H,
        outside: &mut O,
    ) -> Result<(), Stop>
        requires { self.old.outbox.me ≤ 32 }
        ensures done { OnOk result (GivesAs (Attend C.stands_for C.script) self.old self.new
            (O.told outside.old) (O.told outside.new) network message.now) }
        ensures broke { OnErr result (GiveBreaks self.old (O.told outside.old)
            (O.told outside.new) network message.now) }
        ensures unwritten { IfErr result (λ stop. stop ≡ Stop.WriteFault → GiveFails
            (Attend C.stands_for C.script) self.old self.new (O.told outside.old)
            (O.told outside.new) network message.now) }
        ensures same { IsSame self.old self.new }
        ensures fault { IfErr result (StopsBy (O.told outside.new)) }
    {
        if let Some(question) = read_question(message) {
            self.tell_of_itself(alloc, question, network, outside)?;
            return Ok(());
        }
        self.bring(alloc, message, network, hosts, outside)?;
        Ok(())
    }
}
