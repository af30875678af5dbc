//! Single steps and long runs. Each function is a law.
ghost use Rattle.std.specs.Prelude.{◌≡◌, ◌∷◌, [], codes};
ghost use Rattle.node_state.specs.declared.config.Mode.TheVariants.{Fixed};
ghost use Rattle.world_model.specs.Load.{load_text, messages, settings_of};
ghost use Rattle.world_model.specs.Play.{lines_text, played_records};
ghost use Rattle.script_examples.specs.Samples.{lookup_in, name_packet, question, answer, sends_at, records_at};

/// A packet of level 2 in the own domain is answered.
#[tactic(auto, unfolding(crate::specs::Opens::all_opens))]
pub fn own_domain()
    ensures { sends_at (lookup_in 1) ≡ name_packet ∷ [] }
{}

/// In another domain it does nothing.
#[tactic(auto, unfolding(crate::specs::Opens::all_opens))]
pub fn other_domain()
    ensures sends { sends_at (lookup_in 2) ≡ [] }
    ensures records { records_at (lookup_in 2) ≡ [] }
{}

/// A question of a status client is answered on its network.
#[tactic(auto, unfolding(crate::specs::Opens::all_opens))]
pub fn status_question()
    ensures { sends_at question ≡ answer ∷ [] }
{}

/// The load of one step.
pub fn load_of_one()
    ensures { load_text 1 ≡ codes "load 1\nviews 32\nputs 86\nheard 58\ntold 1\n" }
{}

/// Nothing begins in a list of 4,096 places.
pub fn list_full()
    ensures { lines_text (codes "told" ∷ []) (played_records (settings_of Fixed (1 ∷ []))
        (messages 4096)) ≡ codes "told 1.1.1.1 4097 LIST_FULL 4096/81925\n" }
{}
