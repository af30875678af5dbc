//! Worked lines: laws that compute.
ghost use Rattle.std.specs.Prelude.{◌≡◌, ◌++◌, ◌∷◌, [], Some, None, codes, is_some, true};
ghost use Rattle.client_callbacks.specs.declared.told.Why.TheVariants as why;
ghost use Rattle.proposal_core.specs.declared.entry.Vote.TheVariants as vote;
ghost use Rattle.session_state.specs.declared.fault.GsFault.TheVariants as fault;
ghost use Rattle.word_laws.specs.declared.kind.Kind.TheVariants as kind;
ghost use Rattle.record_lines.specs.declared.line.Line.TheVariants as line;
ghost use Rattle.record_lines.specs.declared.line.Note.TheVariants as note;
ghost use Rattle.record_lines.specs.declared.line.Status.TheVariants as status;
ghost use Rattle.record_lines.specs.Reading.{line_read};

/// Lines of few words.
#[tactic(auto, unfolding(crate::specs::Reading::reading_opens))]
pub fn short_lines()
    ensures up { line_read (codes "up 1 0") ≡ Some (line.Up 1 0) }
    ensures down { line_read (codes "down 32") ≡ Some (line.Down 32) }
    ensures ring { line_read (codes "ring 1 4 1.0.7 1,2 2")
        ≡ Some (line.Ring 1 4 (record { leader = 1; inc = 0; number = 7 }) (1 ∷ 2 ∷ []) 2) }
    ensures asked { line_read (codes "asked 1.1.7.1 1 db join")
        ≡ Some (line.Asked (record { node = 1; inc = 1; instance = 7; join = 1 }) 1
        (codes "db") kind.Join) }
    ensures told { line_read (codes "told 1.1.7.1 2 GROUPS_FULL 64")
        ≡ Some (line.Told (record { node = 1; inc = 1; instance = 7; join = 1 }) 2
        (why.GroupsFull 64)) }
    ensures refused { line_read (codes "refused 1.c65 SESSIONS_FULL 64")
        ≡ Some (line.Refused 1 (codes "c65") (fault.SessionsFull 64)) }
    ensures shown { line_read (codes "show 1 hagsgr db leader=? len=3 members=- value=%20")
        ≡ Some (line.Show 1 (status.Group (codes "db") None 3 [] (32 ∷ []))) }
{}

/// One line of each other kind.
#[tactic(auto, unfolding(crate::specs::Reading::reading_opens))]
pub fn long_lines()
    ensures entered { is_some (line_read (codes "in 1 2.1.1 1.1,2.1")) ≡ true }
    ensures base { is_some (line_read
        (codes "base 2 5.1.1 db 4.2.1 1 1.1.1.1,2.1.2.1 =up 1.1.1.1 4.2.1/0:1")) ≡ true }
    ensures put { is_some (line_read
        (codes "put 1 2.1.1 db 0 once join 1.1.1.1 phases=n limit=5 src=2")) ≡ true }
    ensures closed { is_some (line_read
        (codes "put 1 2.1.1 db 1 approve 2.1.1/0 201 1.1.1.1=A,1.1.1.1=LR =v")) ≡ true }
    ensures heard { is_some (line_read
        (codes "heard 1.1.7.1 1.1.1 db 0 once-join 1.1.7.1 =")) ≡ true }
    ensures cast { is_some (line_read (codes "cast 1.1.7.1 1.1.1/0 1 C=x")) ≡ true }
    ensures noted { is_some (line_read (codes "noted 1.a 1.1.1 db - 1.1.7.1 =x")) ≡ true }
    ensures hosts { is_some (line_read (codes "noted 1.a 1.1.1 HostMembership 3 1.1 =")) ≡ true }
    ensures ring { is_some (line_read
        (codes "show 1 hats 1 1.1.1 members=1,2 neighbour=2")) ≡ true }
    ensures view { is_some (line_read
        (codes "show 1 hagsns 1.1.1 coord=1 members=1.1 frozen=no")) ≡ true }
    ensures vote { is_some (line_read
        (codes "show 1 hagsvote db 1.1.1/0 phase=1 kind=join waiting=?")) ≡ true }
{}

/// What is no line.
#[tactic(auto, unfolding(crate::specs::Reading::reading_opens))]
pub fn no_lines()
    ensures empty { line_read [] ≡ None }
    ensures zero { line_read (codes "up 1 01") ≡ None }
    ensures node { line_read (codes "up 33 1") ≡ None }
    ensures blank { line_read (codes "up 1 1 ") ≡ None }
    ensures more { line_read (codes "down 1 1") ≡ None }
    ensures escape { line_read (codes "cast 1.1.7.1 1.1.1/0 1 C=%78") ≡ None }
    ensures order { line_read
        (codes "put 1 2.1.1 db 0 once join 1.1.1.1 limit=5 phases=n") ≡ None }
    ensures repeated { line_read
        (codes "put 1 2.1.1 db 0 once join 1.1.1.1,1.1.1.1") ≡ None }
    ensures nobody { line_read (codes "put 1 2.1.1 db 0 once join -") ≡ None }
    ensures descending { line_read (codes "in 1 2.1.1 2.1,1.1") ≡ None }
    ensures groups { line_read (codes "told 1.1.7.1 2 GROUPS_FULL 63") ≡ None }
    ensures memory { line_read (codes "refused 1.a NO_MEMORY") ≡ None }
    ensures leader { line_read
        (codes "show 1 hagsgr db leader=0 len=1 members=- value=") ≡ None }
    ensures hosts { line_read (codes "noted 1.a 1.1.1 HostMembership - 1.1 =x") ≡ None }
    ensures coordinator { line_read
        (codes "show 1 hagsns 1.1.1 coord=2 members=1.1 frozen=no") ≡ None }
{}
