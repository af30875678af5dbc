//! What a client keeps for each of its providers.
ghost use Rattle.std.specs.Prelude.{◌≡◌, IfOk};
ghost use Rattle.client_callbacks.specs.Handed.{notice_of};
ghost use Rattle.table_client.specs.Rules.{fresh_copy};

use crate::chunks::KeptChunk;
use agreed_table::Table;
use client_callbacks::Notice;
use proposal_core::Running;
use rsct_packet::{List, NoMemory, ProviderId, ViewId};
use std::alloc::Global;
use std::marker::Model;

/// A copy of a group's map: the view and the number of entries of the group's list up to which it was followed, and the
/// map there, which is none where not all of it is known.
#[derive(Drop)]
pub struct TableCopy {
    pub view: ViewId,
    pub len: u32,
    pub map: Option<Table>,
}

/// The copy of a provider, with its group, the protocol that runs there, and the chunks that its own join has brought.
#[derive(Drop)]
pub(crate) struct Kept {
    pub(crate) provider: ProviderId,
    pub(crate) group: List<u8>,
    pub(crate) copy: TableCopy,
    pub(crate) running: Option<Running>,
    pub(crate) chunks: List<KeptChunk>,
}

impl Model for Kept {
    ghost use Rattle.table_client.specs.Rules.{Copied};

    ghost Value = { Copied };

    ghost view = { λ k. record {
      provider = k.provider;
      group = k.group;
      view = k.copy.view;
      len = k.copy.len;
      map = k.copy.map;
      running = k.running;
      chunks = k.chunks;
    } };
}

impl Kept {
    /// The copy of a provider that was handed nothing before this notice.
    pub(crate) fn new(alloc: Global, notice: &Notice<'_>) -> Result<Kept, NoMemory>
        ensures { IfOk result (λ kept. kept ≡ fresh_copy (notice_of notice.now)) }
    {
        Ok(Kept {
            provider: notice.provider,
            group: List::of(alloc, notice.group)?,
            copy: TableCopy {
                view: notice.view,
                len: 0,
                map: None,
            },
            running: None,
            chunks: List::new(alloc),
        })
    }
}
