//! In which incarnations nodes started last.
ghost use Rattle.std.specs.Prelude.{◌≡◌, [], map, find, OnOk, option_copied};
ghost use Rattle.std.specs.List.{position};
ghost use Rattle.world_model.specs.World.{inc_in, starts_with};
ghost use Rattle.play_state.specs.Starts.{started_in, is_start_of, is_start};

use rsct_packet::NoMemory;
use std::alloc::Global;
use std::marker::Model;

/// The incarnation in which a node started last.
#[derive(Clone, Copy, Debug, PartialEq, Eq)]
pub struct Started {
    pub node: u8,
    pub inc: u32,
}

/// The last incarnation of each node that ever started, in the order of their first starts.
#[derive(Drop)]
pub struct Starts {
    rows: Vec<Started>,
}

impl Model for Starts {
    ghost use Rattle.std.specs.Prelude.{List};
    ghost use Rattle.play_state.specs.declared.starts.Started.{Started};

    ghost Value = { List Started };

    ghost view = { λ s. s.rows.items };
}

fn start_of(starts: &[Started], node: u8) -> Option<&Started>
    ensures { option_copied result ≡ find (is_start_of node) starts.now }
{
    starts.iter().find(|x| x.node == node)
}

fn place_of(starts: &[Started], node: u8) -> Option<usize>
    ensures { result ≡ position (is_start_of node) starts.now }
{
    starts.iter().position(|x| x.node == node)
}

impl Starts {
    /// No node has started.
    pub fn new(alloc: Global) -> Starts
        ensures { result ≡ [] }
    {
        Starts {
            rows: Vec::new(alloc),
        }
    }

    /// The incarnation in which a node started last; 0 where it never did.
    #[tactic(auto, using(crate::proofs::StartLaws::started_last, crate::proofs::StartLaws::never_started))]
    pub fn last(&self, node: u8) -> u32
        ensures { result ≡ inc_in (find (is_start node) (map started_in self.now)) }
    {
        match start_of(self.rows.as_slice(), node) {
            None => 0,
            Some(x) => x.inc,
        }
    }

    /// Notes that a node started in an incarnation.
    #[tactic(auto, using(rsct_packet::proofs::SearchLaws::place_is_position, crate::proofs::StartLaws::noted_again, crate::proofs::StartLaws::noted_first, rsct_packet::proofs::SearchLaws::place_is_in, std::proofs::lemmas::Grind::common_steps))]
    pub fn note(&mut self, node: u8, inc: u32) -> Result<(), NoMemory>
        ensures { OnOk result (map started_in self.new
            ≡ starts_with (map started_in self.old) node inc) }
    {
        match place_of(self.rows.as_slice(), node) {
            None => self.rows.push(Started { node, inc })?,
            Some(i) => self.rows[i] = Started { node, inc },
        }
        Ok(())
    }
}
