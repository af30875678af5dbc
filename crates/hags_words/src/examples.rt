//! Worked examples of command lines. Each function is a law: what the definitions compute.
ghost use Rattle.std.specs.Prelude.{◌≡◌, ◌∷◌, [], codes, true, false, Some, None};
ghost use Rattle.hags_words.specs.declared.command.Command.TheVariants as command;
ghost use Rattle.hags_words.specs.declared.command.Subject.TheVariants as subject;
ghost use Rattle.packet_bodies.specs.declared.body.What.TheVariants as what;
ghost use Rattle.hags_words.specs.Samples.{asked_of, asked_all, client_with, daemon_with, status_with, table_with};

/// A client has the key that is named, from 1 to the last number of 32 bits, or none; and only a client has one.
#[tactic(auto, unfolding(crate::specs::Opens::words_open))]
pub fn reads_keys()
    ensures named { client_with (codes "--key" ∷ codes "7" ∷ [])
        ≡ Some (command.Client 3 1000 (Some 7)) }
    ensures last { client_with (codes "--key=4294967295" ∷ [])
        ≡ Some (command.Client 3 1000 (Some 4294967295)) }
    ensures unnamed { client_with [] ≡ Some (command.Client 3 1000 None) }
    ensures past { client_with (codes "--key=4294967296" ∷ []) ≡ None }
    ensures zero { client_with (codes "--key=0" ∷ []) ≡ None }
    ensures other { daemon_with (codes "--key=7" ∷ []) ≡ None }
{}

/// A daemon that lasts does as many turns as 64 bits count, and is told no other number; flags come in any order, and each
/// once.
#[tactic(auto, unfolding(crate::specs::Opens::words_open))]
pub fn reads_flags()
    ensures lasting { daemon_with (codes "--lasting" ∷ [])
        ≡ Some (command.Daemon 3 None 18446744073709551615 (asked_of false)) }
    ensures both { daemon_with (codes "--remote" ∷ codes "--inc=5" ∷ codes "--lasting" ∷ [])
        ≡ Some (command.Daemon 3 (Some 5) 18446744073709551615 (asked_of true)) }
    ensures untold { daemon_with [] ≡ Some (command.Daemon 3 None 4294967295 (asked_of false)) }
    ensures told { daemon_with (codes "--turns=9" ∷ [])
        ≡ Some (command.Daemon 3 None 9 (asked_of false)) }
    ensures too { daemon_with (codes "--lasting" ∷ codes "--turns=9" ∷ []) ≡ None }
    ensures twice { daemon_with (codes "--lasting" ∷ codes "--lasting" ∷ []) ≡ None }
    ensures value { daemon_with (codes "--inc" ∷ codes "--lasting" ∷ []) ≡ None }
    ensures other { client_with (codes "--lasting" ∷ []) ≡ None }
{}

/// A daemon's options come in any order, each once and in its range; lines of entries and silent keys are asked only of a
/// daemon that serves clients on other machines.
#[tactic(auto, unfolding(crate::specs::Opens::words_open))]
pub fn reads_options_of_a_daemon()
    ensures all { daemon_with (codes "--gap=600" ∷ codes "--silence=50" ∷ codes "--remote"
        ∷ codes "--mend=30" ∷ codes "--entries" ∷ [])
        ≡ Some (command.Daemon 3 None 4294967295 (asked_all 50 30 600)) }
    ensures entries { daemon_with (codes "--entries" ∷ []) ≡ None }
    ensures silence { daemon_with (codes "--silence=50" ∷ []) ≡ None }
    ensures early { daemon_with (codes "--remote" ∷ codes "--silence=9" ∷ []) ≡ None }
    ensures long { daemon_with (codes "--mend=10001" ∷ []) ≡ None }
    ensures short { daemon_with (codes "--gap=99" ∷ []) ≡ None }
    ensures other { client_with (codes "--mend=30" ∷ []) ≡ None }
{}

/// The maps of a group are those of the group that is named, and of one; a daemon's options are not theirs.
#[tactic(auto, unfolding(crate::specs::Opens::words_open))]
pub fn reads_groups()
    ensures named { table_with (codes "db" ∷ []) ≡ Some (command.Table (codes "db")) }
    ensures hyphen { table_with (codes "--" ∷ codes "-db" ∷ [])
        ≡ Some (command.Table (codes "-db")) }
    ensures unnamed { table_with [] ≡ None }
    ensures two { table_with (codes "db" ∷ codes "db" ∷ []) ≡ None }
    ensures other { table_with (codes "d+b" ∷ []) ≡ None }
    ensures node { table_with (codes "db" ∷ codes "--node=3" ∷ []) ≡ None }
    ensures silence { table_with (codes "db" ∷ codes "--silence=50" ∷ []) ≡ None }
    ensures mend { table_with (codes "db" ∷ codes "--mend=30" ∷ []) ≡ None }
    ensures gap { table_with (codes "db" ∷ codes "--gap=600" ∷ []) ≡ None }
{}

/// A status is asked about what the node knows, or about the daemon's clients or the daemon itself, by six words.
#[tactic(auto, unfolding(crate::specs::Opens::words_open))]
pub fn reads_subjects()
    ensures node { status_with (codes "hagsvote" ∷ [])
        ≡ Some (command.Status (subject.Node what.Hagsvote) 3 1000) }
    ensures clients { status_with (codes "hagscl" ∷ [])
        ≡ Some (command.Status subject.Clients 3 1000) }
    ensures daemon { status_with (codes "hagsd" ∷ codes "--turns=5" ∷ [])
        ≡ Some (command.Status subject.Daemon 3 5) }
    ensures longer { status_with (codes "hagsds" ∷ []) ≡ None }
    ensures shorter { status_with (codes "hags" ∷ []) ≡ None }
    ensures two { status_with (codes "hagsd" ∷ codes "hagscl" ∷ []) ≡ None }
    ensures unnamed { status_with [] ≡ None }
{}
