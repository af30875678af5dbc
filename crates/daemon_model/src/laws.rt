//! What holds of every life.
ghost use Rattle.std.specs.Prelude.{◌≡◌, ℕ, List, Some, None};
ghost use Rattle.hags_io.specs.declared.link.LinkCall.{LinkCall};
ghost use Rattle.node_state.specs.declared.config.Config.{Config};
ghost use Rattle.node_state.specs.HandOn.{Answering};
ghost use Rattle.daemon_model.specs.declared.options.RemoteService.TheVariants as remotes;
ghost use Rattle.self_questions.specs.declared.messages.SelfQuestion.{SelfQuestion};
ghost use Rattle.self_questions.specs.Messages.{question_of};
ghost use Rattle.daemon_model.specs.Daemon.{Daemon, Life, joined_by, received, given, up_in, brought, told_itself, AsksNothing, given_on, network_of, heard, lived};
ghost use Rattle.daemon_model.specs.Actions.{LivesAreActions};
ghost use Rattle.daemon_model.specs.Options.{NothingUnasked, PlainFollows, PlainTurns};
ghost use Rattle.daemon_model.specs.Silence.{SilentKeysEnd};
ghost use Rattle.daemon_model.specs.Laws.{LivesAreDoings, FrontsOfFronts, WrittenFirst, FrontsExchange, PlacingsArePlaces};

/// A daemon that serves no clients on other machines never has a session of one, and a message that asks it nothing about
/// itself is one for its node.
#[tactic(auto, using(crate::proofs::AloneLaws::lived_alone, crate::proofs::AloneLaws::heard_alone))]
pub fn alone_without_other_machines()
    ensures lived { (c : Config) (me incarnation : ℕ) (life : Life)
        → life.service.remote ≡ remotes.Off
        → (lived c me incarnation life).sessions ≡ None }
    ensures heard { (d : Daemon) (got : LinkCall) (f : Answering) → d.sessions ≡ None
        → AsksNothing (joined_by got d.joining).message
        → heard got f d ≡ given (joined_by got d.joining).message f (received got d) }
{}

/// Whomever it serves, a daemon answers a question about itself, on the network on which that came, by what it counted up to
/// then, the receive that brought it among it. Its node, its records and its sessions stay. And a message that asks nothing
/// of the kind brings what an Up brings, or is the node's: so where nobody asks nothing is different.
#[tactic(auto, using(crate::proofs::AskLaws::answers, crate::proofs::AskLaws::core_stays, crate::proofs::AskLaws::records_stay, crate::proofs::AskLaws::sessions_stay, crate::proofs::AskLaws::nothing_unasked))]
pub fn answers_about_itself()
    ensures answers { (d : Daemon) (got : LinkCall) (f : Answering) (m : List ℕ)
        (q : SelfQuestion) → (joined_by got d.joining).message ≡ Some m
        → question_of m ≡ Some q
        → heard got f d ≡ told_itself q (network_of got) (received got d) }
    ensures core { (q : SelfQuestion) (network : ℕ) (d : Daemon)
        → (told_itself q network d).core ≡ d.core }
    ensures records { (q : SelfQuestion) (network : ℕ) (d : Daemon)
        → (told_itself q network d).records ≡ d.records }
    ensures sessions { (q : SelfQuestion) (network : ℕ) (d : Daemon)
        → (told_itself q network d).sessions ≡ d.sessions }
    ensures unasked { (network : ℕ) (m : List ℕ) (f : Answering) (d : Daemon)
        → question_of m ≡ None
        → given_on network (Some m) f d ≡ brought (up_in d.sessions m) network m f d }
{}

/// A life is its acts, one after another: the calls of its settings, and of each turn the tick, what the daemon does of its
/// own, and the receive.
#[tactic(auto, using(crate::proofs::ActionLaws::lives_are_actions))]
pub fn lives_are_actions()
    ensures { LivesAreActions }
{}

/// What a daemon does at its edges, in its order, is what its life exchanges and records.
pub fn lives_are_doings()
    ensures lives { LivesAreDoings }
    ensures fronts { FrontsExchange }
    ensures places { PlacingsArePlaces }
{}

/// What a daemon did up to now is a front of a life's doings, whether it goes on, is killed, or ends by want of memory, a
/// full disk or a lost link: what is said of all that it came to do (`ServesFront`) is so of each front of that. And where
/// a packet of a step went out, the lines of all records up to that step's were written before.
#[tactic(auto, using(crate::proofs::DoingLaws::fronts_of_fronts, crate::proofs::DoingLaws::written_first))]
pub fn did_up_to_now()
    ensures fronts { FrontsOfFronts }
    ensures written { WrittenFirst }
{}

/// A daemon that is asked for no ends of silent keys and not to mend does nothing of its own: each of its turns is a tick,
/// where one is due, and a receive.
#[tactic(auto, using(crate::proofs::OptionLaws::nothing_unasked, crate::proofs::OptionLaws::plain_follows, crate::proofs::OptionLaws::plain_turns))]
pub fn nothing_unasked()
    ensures nothing { NothingUnasked }
    ensures follows { PlainFollows }
    ensures turns { PlainTurns }
{}

/// A key of which no Up came for as many ticks as are borne has ended behind the tick, without a session and without a
/// client, where the daemon may end so many keys.
#[tactic(auto, using(crate::proofs::SilenceLaws::silent_end))]
pub fn silent_keys_end()
    ensures { SilentKeysEnd }
{}
