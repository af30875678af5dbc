//! Worked examples of packets that go through other nodes. Each function is a law: what the definitions compute.
//! Nodes 1, 2 and 3 stand in a chain: 1 and 2 share network 1, and 2 and 3 network 2.
ghost use Rattle.std.specs.Prelude.{◌≡◌, ◌∷◌, [], ◌++◌, true, false, Some, None, codes};
ghost use Rattle.node_state.specs.declared.config.Mode.TheVariants.{Asked};
ghost use Rattle.node_state.specs.HandOn.{Answering};
ghost use Rattle.world_model.specs.declared.event.Event.TheVariants.{Deliver};
ghost use Rattle.world_model.specs.Play.{lines_text};
ghost use Rattle.route_state.specs.Samples.{taken, around as around_bytes};
ghost use Rattle.relay_model.specs.Leaving.{leaves_as, alone};
ghost use Rattle.relay_model.specs.Relays.{relays_by};
ghost use Rattle.relay_model.specs.Play.{played_records};
ghost use Rattle.relay_model.specs.Limits.{runs_from};
ghost use Rattle.relay_model.specs.Settings.{may_meet, is_said};
ghost use Rattle.relay_model.specs.Samples.{chain_settings, all_run, chained, asks_leader, beats, said_on, around, with_sent};

/// What node 1 sends to node 3 leaves in an envelope to node 2, on their network, with 31 hops left. What it sends to node 2
/// leaves by itself.
#[tactic(auto, unfolding(crate::specs::Opens::all_opens))]
pub fn leaves_by_the_middle()
    ensures far { leaves_as (Some (chained 1)) (said_on 0 3 asks_leader)
        ≡ Some (record { from = 1; to = 2; network = 1; parcel = around 31 }) }
    ensures near { leaves_as (Some (chained 1)) (said_on 1 2 asks_leader)
        ≡ Some (alone (said_on 1 2 asks_leader)) }
{}

/// What is for a node that nobody names is lost, and what a ring says is never in an envelope.
#[tactic(auto, unfolding(crate::specs::Opens::all_opens))]
pub fn is_lost_without_a_way()
    ensures nowhere { leaves_as (Some (chained 1)) (said_on 0 4 asks_leader) ≡ None }
    ensures ring { leaves_as (Some (chained 1)) (said_on 0 3 beats) ≡ None }
{}

/// At node 2 the envelope goes on to node 3, on network 2, with a hop less left; and no step happens.
#[tactic(auto, unfolding(crate::specs::Opens::all_opens))]
pub fn goes_on_from_the_middle()
    ensures { (f : Answering) → relays_by f (with_sent (around 31 ∷ [])) (Deliver 1 2 1)
        ≡ record (with_sent (around 31 ∷ [])) {
          pairs = record { from = 1; to = 2; count = 1; parcels = around 31 ∷ [] }
              ∷ record { from = 2; to = 3; count = 1; parcels = around 30 ∷ [] } ∷ [];
          queue = record { from = 2; to = 3; number = 1; network = 2; parcel = around 30 } ∷ [];
          left = around 30 ∷ around 31 ∷ [];
        } }
{}

/// One with no hop left ends there.
#[tactic(auto, unfolding(crate::specs::Opens::all_opens))]
pub fn ends_without_hops()
    ensures { (f : Answering) → relays_by f (with_sent (around 0 ∷ [])) (Deliver 1 2 1)
        ≡ with_sent (around 0 ∷ []) }
{}

/// All three come to one view: what node 1 and node 3 say of views goes through node 2.
#[tactic(auto, unfolding(crate::specs::Opens::all_opens))]
pub fn chain_comes_to_one_view()
    ensures { lines_text (codes "in" ∷ []) (played_records chain_settings (all_run 4))
        ≡ codes "in 1 1.1.1 1.1\nin 2 1.2.1 2.1\nin 3 1.3.1 3.1\n"
        ++ codes "in 1 2.1.1 1.1,2.1\nin 2 2.1.1 1.1,2.1\n"
        ++ codes "in 1 3.1.1 1.1,2.1,3.1\nin 2 3.1.1 1.1,2.1,3.1\nin 3 3.1.1 1.1,2.1,3.1\n" }
{}

/// An envelope has 34 bytes, of which 28 are its packet's: where it is passed on, so many count.
#[tactic(auto, unfolding(crate::specs::Opens::all_opens))]
pub fn each_hop_counts()
    ensures within { (runs_from 34 0 (with_sent (around 31 ∷ [])) (Deliver 1 2 1 ∷ [])).passed
        ≡ None }
    ensures past { (runs_from 33 0 (with_sent (around 31 ∷ [])) (Deliver 1 2 1 ∷ [])).passed
        ≡ Some 34 }
{}

/// The chain is a setting of mode rings alone.
#[tactic(auto, unfolding(crate::specs::Opens::all_opens))]
pub fn rings_need_no_common_network()
    ensures rings { may_meet chain_settings ≡ true }
    ensures asked { may_meet (record chain_settings { mode = Asked }) ≡ false }
{}

/// An envelope is no garbage, as a packet is none; with 32 hops left it is garbage.
#[tactic(auto, unfolding(crate::specs::Opens::all_opens))]
pub fn envelopes_are_no_garbage()
    ensures packet { is_said taken ≡ true }
    ensures envelope { is_said (around_bytes 31 1 3) ≡ true }
    ensures other { is_said (around_bytes 32 1 3) ≡ false }
{}
