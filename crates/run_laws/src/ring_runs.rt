//! The rings of each network agree, in every run.

ghost use Rattle.run_laws.specs.ring_runs.Rings.{RingsAgreeInRuns, ScriptAddressesFit};

/// Whatever starts, stops and steps, in any order: of the ring records of a network whose addresses differ, two of one id have the
/// same members; the node of each is one of them; the id's leader is one of them and has their greatest address; and the
/// neighbour is the next lower member, or of the lowest the highest.
#[tactic(auto, using(crate::proofs::ring_runs::Law::rings_agree_in_runs))]
pub fn rings_agree_in_runs()
    ensures { RingsAgreeInRuns }
{}

/// The addresses of every script differ so, on each network.
pub fn script_addresses_fit()
    ensures { ScriptAddressesFit }
{}
