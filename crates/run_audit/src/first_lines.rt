//! The first lines of requests.
ghost use Rattle.std.specs.Prelude.{◌≡◌, [], is_some, OnOk};
ghost use Rattle.std.specs.Map.{lookup};
ghost use Rattle.run_audit.specs.declared.keys.RequestKey.{RequestKey};
ghost use Rattle.run_audit.specs.Keys.{same_request_key};
ghost use Rattle.run_audit.specs.Requests.{or_number};

use crate::keys::RequestKey;
use indexmap::IndexMap;
use rsct_packet::NoMemory;
use std::alloc::Global;
use std::marker::Model;

/// The number of the first line of each request.
#[derive(Drop)]
pub struct FirstLines {
    by_key: IndexMap<RequestKey, u32>,
}

impl Model for FirstLines {
    ghost use Rattle.std.specs.Prelude.{ℕ, List};
    ghost use Rattle.run_audit.specs.declared.keys.RequestKey.{RequestKey};

    ghost Value = { List (RequestKey × ℕ) };

    ghost view = { λ s. s.by_key.entries };
}

impl FirstLines {
    /// Of no lines.
    pub fn new(alloc: Global) -> FirstLines
        ensures { result ≡ [] }
    {
        FirstLines {
            by_key: IndexMap::new(alloc),
        }
    }

    /// The number of the request's first line.
    pub fn line(&self, key: RequestKey) -> Option<u32>
        ensures { result ≡ lookup (same_request_key key) self.now }
    {
        self.by_key.get(&key).copied()
    }

    /// Has the request a line?
    fn has(&self, key: RequestKey) -> bool
        ensures { result ≡ is_some (lookup (same_request_key key) self.now) }
    {
        self.by_key.contains_key(&key)
    }

    /// The line of this number is of the request.
    pub fn note(&mut self, key: RequestKey, number: u32) -> Result<(), NoMemory>
        ensures { OnOk result ((q : RequestKey) → lookup (same_request_key q) self.new
            ≡ or_number (same_request_key key q) number
            (lookup (same_request_key q) self.old)) }
    {
        if self.has(key) {
            return Ok(());
        }
        self.by_key.insert(key, number)?;
        Ok(())
    }
}
