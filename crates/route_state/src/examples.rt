//! Worked examples of ways. Each function is a law: what the definitions compute.
ghost use Rattle.std.specs.Prelude.{◌≡◌, Some, None};
ghost use Rattle.node_reach.specs.Samples.{chain};
ghost use Rattle.route_state.specs.Envelope.{envelope_of};
ghost use Rattle.route_state.specs.Way.{Own, Pass, Drop, way_of};
ghost use Rattle.route_state.specs.Samples.{taken, around, cut_short};

/// Nodes 1, 2 and 3 stand in a chain: at node 2 the envelope from node 1 to node 3 goes on to node 3, with one hop less
/// left; with no hop left it is dropped; and at node 3 the packet is its own.
#[tactic(auto, unfolding(crate::specs::Opens::route_opens))]
pub fn passes_through_the_middle()
    ensures passes { way_of 2 (chain 2) (envelope_of (around 31 1 3)) ≡ Some (Pass 3 (record {
      front = record { hops = 30; origin = 1; target = 3 };
      inner = taken;
    })) }
    ensures ends { way_of 2 (chain 2) (envelope_of (around 0 1 3)) ≡ Some Drop }
    ensures arrives { way_of 3 (chain 3) (envelope_of (around 0 1 3)) ≡ Some (Own taken) }
{}

/// Bytes with 32 hops, or with a packet of another sender, or with a packet whose body is cut short, are no envelope.
#[tactic(auto, unfolding(crate::specs::Opens::route_opens))]
pub fn reads_no_other()
    ensures hops { envelope_of (around 32 1 3) ≡ None }
    ensures sender { envelope_of (around 31 2 3) ≡ None }
    ensures nobody { envelope_of (around 31 0 3) ≡ None }
    ensures body { envelope_of (cut_short 31 1 3) ≡ None }
{}
