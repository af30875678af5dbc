//! The clients of a daemon's sessions.
ghost use Rattle.std.specs.Prelude.{◌∷◌, [], List, Option};
ghost use Rattle.client_callbacks.specs.declared.votes.VoteItem.{VoteItem};
ghost use Rattle.client_callbacks.specs.Handed.{Handed, Notified, Informed, notice_of};
ghost use Rattle.daemon_run.specs.Hosting.{Says};

use client_callbacks::{Ballot, Callbacks, Notice, Told};
use rsct_packet::NoMemory;

/// The client of a session of a daemon, which `Hosts` gave. Its list (`Says`) begins with one thing more that says whether
/// what it stood for before is known: where it is not known, nothing is said of it, whatever it is handed. So what is said
/// of a client does not hang on what the others of its node stood for.
#[derive(Drop)]
pub struct Hosted<C: Callbacks> {
    pub client: C,
}

impl<C: Callbacks> Callbacks for Hosted<C> {
    ghost stands_for = { λ c h. Says C.stands_for c.client h };

    ghost script = { λ c. C.script c.client };

    #[tactic(auto, using(crate::proofs::HostLaws::says_noticed))]
    fn notice(&mut self, notice: &Notice<'_>, ballot: &mut Ballot) -> Result<(), NoMemory> {
        self.client.notice(notice, ballot)
    }

    #[tactic(auto, using(crate::proofs::HostLaws::says_on))]
    fn told(&mut self, told: &Told) -> Result<(), NoMemory> {
        self.client.told(told)
    }
}
