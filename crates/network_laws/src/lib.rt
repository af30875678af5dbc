//! Laws on the acts of a network: what each node does by itself, and that every execution has an order.
#![tactic(auto)]

ghost use Rattle.network_model.specs.Executions.{EveryExecutionHasAnOrder};
ghost use Rattle.network_model.specs.Lives.{NodesRecordTheirLives};

/// What each node records in a network are the records of its daemons' lives, one after another.
#[tactic(auto, using(crate::proofs::Apart::nodes_record_their_lives))]
pub fn nodes_record_their_lives()
    ensures { NodesRecordTheirLives }
{}

/// Let daemons act in any way, each act at its time, of whatever linear order, such that no datagram is received before it is
/// sent. Then all their acts have one order, that of the times and of each daemon's own acts, which is a network's run.
#[tactic(auto, using(crate::proofs::Orders::executions_have_an_order))]
pub fn executions_have_an_order<T>()
    ensures { EveryExecutionHasAnOrder T }
{}
