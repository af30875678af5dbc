//! Worked examples of a daemon that is asked about itself. Each function is a law: what the definitions compute.
ghost use Rattle.std.specs.Prelude.{◌≡◌, ◌∷◌, [], ◌++◌, Some, true, codes};
ghost use Rattle.hags_io.specs.declared.link.LinkCall.TheVariants as call;
ghost use Rattle.self_questions.specs.declared.messages.SelfWhat.TheVariants.{Hagscl, Hagsd};
ghost use Rattle.daemon_model.specs.SelfLines.{client_text, daemon_text};
ghost use Rattle.daemon_model.specs.Daemon.{records_text, self_text};
ghost use Rattle.daemon_model.specs.Samples.{daemon_after, server_after, calls_of, given_at};
ghost use Rattle.daemon_model.specs.SelfSamples.{asks_itself, tells_itself, asked_unserved, unserved_text, two_served, two_clients, hosted};

/// A daemon without options answers, on the network on which it was asked, and its node does nothing.
#[tactic(auto, unfolding(crate::specs::Opens::all_opens))]
pub fn tells_of_itself_unserved()
    ensures calls { calls_of (daemon_after (1 ∷ []) asked_unserved)
        ≡ call.Quiet ∷ call.Received 1 (1 ∷ 2 ∷ []) ∷ call.Failed
        ∷ call.Received 2 (asks_itself Hagsd)
        ∷ call.Sent 0 2 (tells_itself 1 Hagsd unserved_text) true ∷ [] }
    ensures records { records_text (daemon_after (1 ∷ []) asked_unserved).records
        ≡ codes "up 1 5\nring 1 1 1.5.1 1 1\nin 1 1.1.5 1.5\n" }
    ensures sent { (daemon_after (1 ∷ []) asked_unserved).sent ≡ 1 }
{}

/// Each client on another machine has its own key's counts.
#[tactic(auto, unfolding(crate::specs::Opens::all_opens))]
pub fn tells_each_clients_counts()
    ensures clients { self_text Hagscl (server_after (1 ∷ []) two_served) ≡ two_clients }
    ensures asked { calls_of (server_after (1 ∷ []) (given_at 0 (asks_itself Hagscl) ∷ []))
        ≡ call.Received 1 (asks_itself Hagscl)
        ∷ call.Sent 0 1 (tells_itself 1 Hagscl []) true ∷ [] }
{}

/// A client of the settings has no key.
#[tactic(auto, unfolding(crate::specs::Opens::all_opens))]
pub fn tells_clients_of_the_settings()
    ensures { calls_of hosted ≡ call.Received 1 (asks_itself Hagscl)
        ∷ call.Sent 0 1 (tells_itself 1 Hagscl
        (codes "hagscl c key=- silent=- unread=- members=-\n")) true ∷ [] }
{}

/// The two lines, each with its values in their places.
#[tactic(auto, unfolding(crate::specs::Opens::all_opens))]
pub fn lines_of_a_daemon()
    ensures client { client_text (codes "a") (Some 7) (Some (record { silent = 2; unread = 3 }))
        (record { node = 1; inc = 5; instance = 7; join = 1 }
        ∷ record { node = 1; inc = 5; instance = 8; join = 2 } ∷ [])
        ≡ codes "hagscl a key=7 silent=2 unread=3 members=1.5.7.1,1.5.8.2\n" }
    ensures daemon { daemon_text (record { node = 3; inc = 9 })
        (record {
          version = record { major = 1; minor = 20; patch = 3 };
          settings = 0x0123_4567_89ab_cdef;
        })
        (record {
          ticks = 2;
          receives = record { turns = 1; received = 3; strays = 4; failed = 6 };
          sent = 5;
          keys = 7;
          ended = 8;
        })
        ≡ codes "hagsd 3.9 version=1.20.3 settings=0123456789abcdef turns=1 ticks=2 received=3 "
        ++ codes "strays=4 sent=5 failed=6 keys=7 ended=8\n" }
{}
