//! What the definitions say together.
ghost use Rattle.session_clients.specs.Notices.{FillTheirScripts};

/// Where each client votes by items, what they fill is what these say.
#[tactic(auto, using(crate::proofs::Scripts::fill_their_scripts))]
pub fn scripted_clients_fill_their_scripts()
    ensures { FillTheirScripts }
{}
