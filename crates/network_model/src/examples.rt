//! Worked examples of networks. Each function is a law: what the definitions compute, and which runs they let be.
ghost use Rattle.std.specs.Prelude.{◌≡◌, ℕ, List, None, length, nat_le};
ghost use Rattle.node_state.specs.Bytes.{packet_of};
ghost use Rattle.remote_session.specs.Messages.{UpIn, up_text, up_of, DownIn, down_text};
ghost use Rattle.self_questions.specs.declared.messages.SelfQuestion.{SelfQuestion};
ghost use Rattle.self_questions.specs.Messages.{question_text, reply_text};
ghost use Rattle.network_model.specs.Executions.{Execution};
ghost use Rattle.network_model.specs.Fits.{IsSpelledSend, NetworkRun};
ghost use Rattle.network_model.specs.Samples.{pair, wire_after, lines_after, one_ticks, two_speak, two_speak_lines, both_tick, ticks_cross, crossing, one_answers, answered_at_once, both_up_lines, heard_before, own_before, starts_again, starts_again_lines, client_served, client_served_lines, never_sent, old_incarnation, old_incarnation_lines, two_at_once};

/// A node that skips an incarnation has a life in it in which it does nothing.
#[tactic(auto, unfolding(crate::specs::Opens::net_opens))]
pub fn skips_an_incarnation()
    ensures { lines_after starts_again ≡ starts_again_lines }
{}

/// What a tick sends is on the wire, and another node is given it twice.
#[tactic(auto, unfolding(crate::specs::Opens::net_opens), using(crate::proofs::Runs::two_speak_run))]
pub fn speaks()
    ensures wire { length (wire_after one_ticks) ≡ 1 }
    ensures lines { lines_after two_speak ≡ two_speak_lines }
    ensures run { NetworkRun IsSpelledSend pair two_speak }
{}

/// Two daemons tick at once, and each is given what the other's tick sent, in the turn of its own: though no order of whole
/// turns has that, it is a network's run; and with times it is an execution. So is a tick that is answered before its turn
/// is over a run.
#[tactic(auto, unfolding(crate::specs::Opens::net_opens), using(crate::proofs::Runs::ticks_cross_run, crate::proofs::Runs::answered_at_once_run, crate::proofs::Runs::crossing_execution))]
pub fn turns_cross()
    ensures wire { length (wire_after both_tick) ≡ 2 }
    ensures lines { lines_after ticks_cross ≡ both_up_lines }
    ensures run { NetworkRun IsSpelledSend pair ticks_cross }
    ensures answer { length (wire_after one_answers) ≡ 2 }
    ensures at_once { NetworkRun IsSpelledSend pair answered_at_once }
    ensures execution { Execution ℕ nat_le IsSpelledSend pair crossing }
{}

/// What a client on another machine says is no packet, whatever it is, and nor is what is said to it: so both may come.
#[tactic(auto, using(crate::proofs::Marks::up_is_no_packet, crate::proofs::Marks::down_is_no_packet))]
pub fn client_text_is_no_packet()
    ensures up { (u : UpIn) → packet_of (up_text u) ≡ None }
    ensures down { (d : DownIn) → packet_of (down_text d) ≡ None }
{}

/// What a daemon is asked about itself is no packet and no Up, and what it replies is no packet: so both may come, and
/// without the answer a question does nothing.
#[tactic(auto, using(crate::proofs::Marks::question_is_no_packet, crate::proofs::Marks::reply_is_no_packet, crate::proofs::Marks::question_is_no_up))]
pub fn self_text_is_no_packet()
    ensures question { (q : SelfQuestion) → packet_of (question_text q) ≡ None }
    ensures reply { (q : SelfQuestion) (text : List ℕ)
        → packet_of (reply_text q text) ≡ None }
    ensures up { (q : SelfQuestion) → up_of (question_text q) ≡ None }
{}

/// A client on another machine makes calls of a node, and what is sent to it does nothing at another.
#[tactic(auto, unfolding(crate::specs::Opens::net_opens), using(crate::proofs::Runs::client_served_run))]
pub fn serves_a_client()
    ensures lines { lines_after client_served ≡ client_served_lines }
    ensures run { NetworkRun IsSpelledSend pair client_served }
{}

/// A datagram that was never sent is given in no network's run.
#[tactic(auto, using(crate::proofs::Runs::never_sent_run))]
pub fn gives_what_was_sent()
    ensures { NetworkRun IsSpelledSend pair never_sent → ⊥ }
{}

/// A datagram is given before it is sent in no network's run, to another node or to its own.
#[tactic(auto, using(crate::proofs::Runs::heard_before_run, crate::proofs::Runs::own_before_run))]
pub fn gives_after_the_send()
    ensures other { NetworkRun IsSpelledSend pair heard_before → ⊥ }
    ensures own { NetworkRun IsSpelledSend pair own_before → ⊥ }
{}

/// A node that starts again in its old incarnation is in no network's run: it enters the view 1.1.1 twice.
#[tactic(auto, unfolding(crate::specs::Opens::net_opens), using(crate::proofs::Runs::old_incarnation_run))]
pub fn starts_in_a_greater_incarnation()
    ensures run { NetworkRun IsSpelledSend pair old_incarnation → ⊥ }
    ensures lines { lines_after old_incarnation ≡ old_incarnation_lines }
{}

/// Two daemons of one node are up at once in no network's run.
#[tactic(auto, using(crate::proofs::Runs::two_at_once_run))]
pub fn has_one_daemon_of_a_node()
    ensures { NetworkRun IsSpelledSend pair two_at_once → ⊥ }
{}
