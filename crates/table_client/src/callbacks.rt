//! The client as an object that is handed notices.
ghost use Rattle.std.specs.Prelude.{None};
ghost use Rattle.table_client.specs.Rules.{ByRules};

use crate::client::TableClient;
use client_callbacks::{Ballot, Callbacks, Made, Notice, Told, votes_word};
use rsct_packet::NoMemory;
use std::alloc::Global;

impl Callbacks for TableClient {
    ghost stands_for = { λ c h. ByRules c h };

    ghost script = { λ c. None };

    fn notice(&mut self, notice: &Notice<'_>, ballot: &mut Ballot) -> Result<(), NoMemory> {
        self.follow(notice, ballot)
    }

    fn told(&mut self, told: &Told) -> Result<(), NoMemory> {
        self.hear(told);
        Ok(())
    }
}

impl Made for TableClient {
    ghost script_of = { λ items. None };

    #[tactic(auto, using(crate::proofs::ClientLaws::stands_at_first))]
    fn made(alloc: Global, votes: &[u8]) -> Result<Option<TableClient>, NoMemory> {
        match votes_word(alloc, votes)? {
            None => Ok(None),
            Some(_) => Ok(Some(TableClient::new(alloc))),
        }
    }
}
