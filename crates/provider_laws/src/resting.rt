//! Between events a node rests, so the event of a goodbye puts nothing.

ghost use Rattle.provider_laws.specs.resting.Rest.{NodesRest, GoodbyesPutNothing};

/// Whatever starts, stops and steps, in any order: between two events the end of a step would change nothing at any node that is up.
/// So each step goes on with its passes until nothing more begins, and the bound on their number cuts none off.
#[tactic(auto, using(crate::proofs::resting::Law::nodes_rest))]
pub fn nodes_rest()
    ensures { NodesRest }
{}

/// So the event of a goodbye that is taken puts nothing: in every scene whose history names calls, and calls alone, as calls.
#[tactic(auto, using(crate::proofs::resting::Law::goodbyes_put_nothing))]
pub fn goodbyes_put_nothing()
    ensures { GoodbyesPutNothing }
{}
