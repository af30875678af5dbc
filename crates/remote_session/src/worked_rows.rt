//! A session of one call, computed.
ghost use Rattle.std.specs.Prelude.{◌≡◌, [], ◌∷◌, None, Some, true, codes};
ghost use Rattle.std.specs.Option.{option_map};
ghost use Rattle.remote_session.specs.Messages.{up_text, down_text};
ghost use Rattle.remote_session.specs.declared.far.DownSeen.TheVariants as seen;
ghost use Rattle.remote_session.specs.Daemon.{CallMade, EndedKey, KnownKey, remote_new, up_seen, up_taken, down_for};
ghost use Rattle.remote_session.specs.Ending.{remote_ticked, silent_keys};
ghost use Rattle.remote_session.specs.Client.{far_new, far_seen};
ghost use Rattle.remote_session.specs.WorkedRows.{first_line, first_up, first_up_bytes, after_first_up, after_first_call, first_down_bytes, at_the_end, after_two_ticks, after_the_end, last_down_bytes, far_before, at_its_end};

/// The Up of the first call of key 7, `client 1 a -`.
#[tactic(auto, unfolding(crate::specs::WorkedRows::all_opens))]
pub fn up_of_the_first_call()
    ensures { up_text first_up ≡ first_up_bytes }
{}

/// A daemon of incarnation 5 gives that call out, and the same Up again brings none.
#[tactic(auto, unfolding(crate::specs::WorkedRows::all_opens))]
pub fn same_up_twice()
    ensures first { up_seen (remote_new 5) first_up_bytes ≡ CallMade 7 first_line }
    ensures again { up_seen after_first_call first_up_bytes ≡ KnownKey 7 }
    ensures open { up_seen after_first_up first_up_bytes ≡ KnownKey 7 }
{}

/// Its Down once the call was taken, and the same one after the Up came again.
#[tactic(auto, unfolding(crate::specs::WorkedRows::all_opens))]
pub fn down_of_the_first_call()
    ensures first { down_text (down_for after_first_call 7) ≡ first_down_bytes }
    ensures again { down_text (down_for (up_taken after_first_call first_up_bytes) 7)
        ≡ first_down_bytes }
{}

/// Repeats, reordering and a restart: the call is given out once in each life; the client hears its answer once, and
/// the two events of the first life once each; a Down of the second life is not believed.
#[tactic(auto, unfolding(crate::specs::WorkedRows::all_opens))]
pub fn repeats_and_a_restart()
    ensures given { at_the_end.given 5 7 ≡ first_line ∷ [] }
    ensures given_anew { at_the_end.given 6 7 ≡ first_line ∷ [] }
    ensures answered { at_the_end.answered 7 ≡ true ∷ [] }
    ensures heard { option_map (λ f. f.heard) (at_the_end.fars 7)
        ≡ Some (codes "one" ∷ codes "two" ∷ []) }
    ensures life { option_map (λ f. f.incarnation) (at_the_end.fars 7) ≡ Some (Some 5) }
{}

/// A key is silent for as many ticks as came since its last Up.
#[tactic(auto, unfolding(crate::specs::WorkedRows::all_opens))]
pub fn silent_keys_by_ticks()
    ensures one { silent_keys 2 (remote_ticked after_first_call) ≡ [] }
    ensures two { silent_keys 2 after_two_ticks ≡ 7 ∷ [] }
    ensures again { silent_keys 2 (up_taken after_two_ticks first_up_bytes) ≡ [] }
{}

/// Once the key ended, its Up is one of an ended key, and its Down has incarnation 0 and says that no more are kept. So
/// an end that had a Down before hears that its daemon is lost, and one that had none that it is full.
#[tactic(auto, unfolding(crate::specs::WorkedRows::all_opens))]
pub fn up_of_an_ended_key()
    ensures before { up_seen after_two_ticks first_up_bytes ≡ KnownKey 7 }
    ensures ended { up_seen after_the_end first_up_bytes ≡ EndedKey 7 }
    ensures kept { up_taken after_the_end first_up_bytes ≡ after_the_end }
    ensures down { down_text (down_for after_the_end 7) ≡ last_down_bytes }
    ensures lost { far_seen far_before last_down_bytes ≡ seen.Lost 5 0 }
    ensures full { far_seen (far_new 7) last_down_bytes ≡ seen.Full }
{}

/// A key that ended makes no call a second time, and no event is handed over for it.
#[tactic(auto, unfolding(crate::specs::WorkedRows::all_opens))]
pub fn repeated_after_the_end()
    ensures given { at_its_end.given 5 7 ≡ first_line ∷ [] }
    ensures events { at_its_end.events 5 7 ≡ codes "one" ∷ [] }
    ensures answered { at_its_end.answered 7 ≡ [] }
{}
