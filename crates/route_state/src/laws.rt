//! What the step of a node does not read.
ghost use Rattle.route_state.specs.Relaying.{NetworkIsNotRead};

/// On which network a packet came that may go through other nodes makes no difference to the step of its node.
#[tactic(auto, using(crate::proofs::NetworkLaws::network_is_not_read))]
pub fn network_is_not_read()
    ensures { NetworkIsNotRead }
{}
