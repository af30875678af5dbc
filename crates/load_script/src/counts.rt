//! What is counted of a run.
ghost use Rattle.std.specs.Prelude.{◌≡◌, ◌+◌, OnOk, IfOk};
ghost use Rattle.world_model.specs.Load.{is_in, is_put, is_heard, is_told};
ghost use Rattle.load_script.specs.Counting.{one_if, no_counts, counts_with, counted};

use node_state::Happened;
use rsct_packet::NoMemory;

/// How many records of four kinds a run has.
#[derive(Clone, Copy, Debug, PartialEq, Eq)]
pub struct Counts {
    /// `in`: a node enters a view.
    pub views: u64,
    /// `put`: a node appends an entry.
    pub puts: u64,
    /// `heard`: a client is handed an entry.
    pub heard: u64,
    /// `told`: a client is told why its request failed.
    pub told: u64,
}

#[tactic(auto, unfolding(world_model::specs::Load::is_in))]
fn is_in(happened: &Happened) -> bool
    ensures { result ≡ is_in happened.now }
{
    matches!(happened, Happened::In { .. })
}

#[tactic(auto, unfolding(world_model::specs::Load::is_put))]
fn is_put(happened: &Happened) -> bool
    ensures { result ≡ is_put happened.now }
{
    matches!(happened, Happened::Put { .. })
}

#[tactic(auto, unfolding(world_model::specs::Load::is_heard))]
fn is_heard(happened: &Happened) -> bool
    ensures { result ≡ is_heard happened.now }
{
    matches!(happened, Happened::Heard { .. })
}

#[tactic(auto, unfolding(world_model::specs::Load::is_told))]
fn is_told(happened: &Happened) -> bool
    ensures { result ≡ is_told happened.now }
{
    matches!(happened, Happened::Told { .. })
}

/// One more, if so. A count that has no room for it counts as want of memory.
fn plus(count: u64, is_counted: bool) -> Result<u64, NoMemory>
    ensures { IfOk result (λ n. n ≡ count + one_if is_counted) }
{
    if !is_counted {
        return Ok(count);
    }
    match count.checked_add(1) {
        Some(count) => Ok(count),
        None => Err(NoMemory),
    }
}

impl Counts {
    /// None were counted.
    pub fn none() -> Counts
        ensures { result ≡ no_counts }
    {
        Counts {
            views: 0,
            puts: 0,
            heard: 0,
            told: 0,
        }
    }

    /// A record more.
    fn note(&mut self, happened: &Happened) -> Result<(), NoMemory>
        ensures { OnOk result (self.new ≡ counts_with self.old happened.now) }
    {
        self.views = plus(self.views, is_in(happened))?;
        self.puts = plus(self.puts, is_put(happened))?;
        self.heard = plus(self.heard, is_heard(happened))?;
        self.told = plus(self.told, is_told(happened))?;
        Ok(())
    }

    /// These records more. After an error nothing is said of the counts; a count of 2^64 counts as want of memory.
    pub fn count(&mut self, records: &[Happened]) -> Result<(), NoMemory>
        ensures { OnOk result (self.new ≡ counted self.old records.now) }
    {
        for happened in records {
            self.note(happened)?;
        }
        Ok(())
    }
}
