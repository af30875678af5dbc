//! Worked examples of a daemon's run. Each function is a law: what the definitions compute.
ghost use Rattle.std.specs.Prelude.{◌≡◌, ◌∷◌, [], map, codes, true, false};
ghost use Rattle.hags_io.specs.declared.link.LinkCall.TheVariants as call;
ghost use Rattle.hags_io.specs.Places.{no_places, told_place, with_place};
ghost use Rattle.remote_session.specs.declared.messages.Answer.TheVariants as answer;
ghost use Rattle.daemon_model.specs.Daemon.{records_text};
ghost use Rattle.daemon_model.specs.Settings.{all_places};
ghost use Rattle.daemon_model.specs.Samples.{settings_for, daemon_after, server_after, calls_of, up_piece, down_piece, quiet_at, failed_at, given_at, is_send, piece_of_question, piece_of_answer, long_piece, progress};

/// A node alone starts, is in its first view, and sends nothing.
#[tactic(auto, unfolding(crate::specs::Opens::all_opens))]
pub fn begins_alone()
    ensures records { records_text (daemon_after (1 ∷ []) (quiet_at 0 ∷ quiet_at 0 ∷ [])).records
        ≡ codes "up 1 5\nring 1 1 1.5.1 1 1\nin 1 1.1.5 1.5\n" }
    ensures calls { calls_of (daemon_after (1 ∷ []) (quiet_at 0 ∷ quiet_at 0 ∷ []))
        ≡ call.Quiet ∷ call.Quiet ∷ [] }
{}

/// A tick comes where 100 milliseconds have passed since the last one: at 100 and 200 here, and each sends a packet to
/// the other node, of the next number.
#[tactic(auto, unfolding(crate::specs::Opens::all_opens))]
pub fn ticks_when_due()
    ensures calls { map is_send (calls_of (daemon_after (1 ∷ 2 ∷ [])
        (quiet_at 0 ∷ quiet_at 99 ∷ quiet_at 100 ∷ quiet_at 199 ∷ quiet_at 200 ∷ [])))
        ≡ false ∷ false ∷ true ∷ false ∷ false ∷ true ∷ false ∷ [] }
    ensures number { (daemon_after (1 ∷ 2 ∷ [])
        (quiet_at 0 ∷ quiet_at 99 ∷ quiet_at 100 ∷ quiet_at 199 ∷ quiet_at 200 ∷ [])).number ≡ 3 }
    ensures last { (daemon_after (1 ∷ 2 ∷ [])
        (quiet_at 0 ∷ quiet_at 99 ∷ quiet_at 100 ∷ quiet_at 199 ∷ [])).last ≡ 100 }
{}

/// A question of a status client is answered at once, to sender 0, on its network.
#[tactic(auto, unfolding(crate::specs::Opens::all_opens))]
pub fn tells_a_status_client()
    ensures { calls_of (daemon_after (1 ∷ []) (given_at 0 piece_of_question ∷ []))
        ≡ call.Received 1 piece_of_question ∷ call.Sent 0 1 piece_of_answer true ∷ [] }
{}

/// The pieces of a message come in any order, and some twice: it is whole at the last missing one.
#[tactic(auto, unfolding(crate::specs::Opens::all_opens))]
pub fn joins_pieces_in_any_order()
    ensures before { map progress (daemon_after (1 ∷ []) (given_at 0 (long_piece 2)
        ∷ given_at 0 (long_piece 0) ∷ given_at 0 (long_piece 2) ∷ [])).joining
        ≡ (9, false) ∷ [] }
    ensures last { map progress (daemon_after (1 ∷ []) (given_at 0 (long_piece 2)
        ∷ given_at 0 (long_piece 0) ∷ given_at 0 (long_piece 2)
        ∷ given_at 0 (long_piece 1) ∷ [])).joining ≡ (9, true) ∷ [] }
{}

/// Receives that fail are counted while they are in a row.
#[tactic(auto, unfolding(crate::specs::Opens::all_opens))]
pub fn counts_failed_receives()
    ensures rule { (daemon_after (1 ∷ []) (failed_at 0 ∷ failed_at 0 ∷ [])).failed ≡ 2 }
    ensures anew { (daemon_after (1 ∷ []) (failed_at 0 ∷ failed_at 0 ∷ quiet_at 0
        ∷ failed_at 0 ∷ [])).failed ≡ 1 }
{}

/// Each adapter stands at the port of its node.
#[tactic(auto, unfolding(crate::specs::Opens::all_opens))]
pub fn tells_places()
    ensures { all_places (settings_for (1 ∷ 2 ∷ [])) no_places
        ≡ with_place 2 1 167837698 4002 (with_place 1 1 167837697 4001 no_places) }
{}

/// The first call of a client on another machine is taken, and its Down goes back on the network on which it came. The
/// same Up once more is no second call: it brings the same Down, as the next message.
#[tactic(auto, unfolding(crate::specs::Opens::all_opens))]
pub fn serves_a_client_once()
    ensures calls { calls_of (server_after (1 ∷ [])
        (given_at 0 (up_piece 1 1 (codes "client 1 a -"))
        ∷ given_at 0 (up_piece 2 1 (codes "client 1 a -")) ∷ []))
        ≡ call.Received 1 (up_piece 1 1 (codes "client 1 a -"))
        ∷ call.Sent 0 1 (down_piece 1 1 answer.Taken []) true
        ∷ call.Received 1 (up_piece 2 1 (codes "client 1 a -"))
        ∷ call.Sent 0 1 (down_piece 2 1 answer.Taken []) true ∷ [] }
{}

/// A first call that is none of a client of this node is refused without a step.
#[tactic(auto, unfolding(crate::specs::Opens::all_opens))]
pub fn turns_down_a_call()
    ensures { calls_of (server_after (1 ∷ [])
        (given_at 0 (up_piece 1 1 (codes "client 2 a -")) ∷ []))
        ≡ call.Received 1 (up_piece 1 1 (codes "client 2 a -"))
        ∷ call.Sent 0 1 (down_piece 1 1 answer.Refused []) true ∷ [] }
{}

/// What a call of a key refuses goes to its client, which hears why.
#[tactic(auto, unfolding(crate::specs::Opens::all_opens))]
pub fn tells_what_is_refused()
    ensures { calls_of (server_after (1 ∷ []) (given_at 0 (up_piece 1 1 (codes "client 1 a -"))
        ∷ given_at 0 (up_piece 2 2 (codes "leave a db 1")) ∷ []))
        ≡ call.Received 1 (up_piece 1 1 (codes "client 1 a -"))
        ∷ call.Sent 0 1 (down_piece 1 1 answer.Taken []) true
        ∷ call.Received 1 (up_piece 2 2 (codes "leave a db 1"))
        ∷ call.Sent 0 1 (down_piece 2 2 answer.Refused
        (codes "refused 1.a BAD_MEMBER_TOKEN" ∷ [])) true ∷ [] }
{}

/// Without clients on other machines an Up is bytes that are no packet: nothing comes of it.
#[tactic(auto, unfolding(crate::specs::Opens::all_opens))]
pub fn serves_nobody_unasked()
    ensures { calls_of (daemon_after (1 ∷ [])
        (given_at 0 (up_piece 1 1 (codes "client 1 a -")) ∷ []))
        ≡ call.Received 1 (up_piece 1 1 (codes "client 1 a -")) ∷ [] }
{}
