//! How protocols are voted. Each function is a law: what the transcript of a script is.
ghost use Rattle.std.specs.Prelude.{◌≡◌, codes, ◌++◌};
ghost use Rattle.world_model.specs.Play.{transcript};

/// A join and a leave in phases; the leaver does not vote, and a phase without voters is approved.
#[tactic(auto, unfolding(crate::specs::Opens::all_opens))]
pub fn n_phase_join_and_leave()
    ensures { transcript (codes "")
        (codes "mode fixed\nnode 1\nbegin\nclient 1 a A\njoin a db 7 phases=n\nflow\n"
        ++ codes "leave a db n\nflow\n") ≡ codes "up 1 1\nin 1 1.1.1 1.1\nasked 1.1.7.1 1 db join\n"
        ++ codes "put 1 1.1.1 db 0 begin join 1.1.7.1 phases=n\n"
        ++ codes "heard 1.1.7.1 1.1.1 db 0 begin-join - =\ncast 1.1.7.1 1.1.1/0 1 A\n"
        ++ codes "put 1 1.1.1 db 1 approve 1.1.1/0 1 1.1.7.1=A -\n"
        ++ codes "heard 1.1.7.1 1.1.1 db 1 approve 1.1.7.1 =\nasked 1.1.7.1 2 db leave\n"
        ++ codes "put 1 1.1.1 db 2 begin leave 1.1.7.1/2\n"
        ++ codes "heard 1.1.7.1 1.1.1 db 2 begin-leave 1.1.7.1 =\n"
        ++ codes "put 1 1.1.1 db 3 approve 1.1.1/2 1 - -\nheard 1.1.7.1 1.1.1 db 3 approve - =\n" }
{}

/// A CONTINUE with a value, which the next phase approves.
#[tactic(auto, unfolding(crate::specs::Opens::all_opens))]
pub fn value_in_a_vote()
    ensures { transcript (codes "put,heard") (codes
        "mode fixed\nnode 1\nbegin\nclient 1 a C=blue,A\nclient 1 b A\njoin a db 1\n"
        ++ codes "join b db 2\nflow\nmessage a db n hi\nflow\n")
        ≡ codes "put 1 1.1.1 db 0 once join 1.1.1.1\n"
        ++ codes "heard 1.1.1.1 1.1.1 db 0 once-join 1.1.1.1 =\n"
        ++ codes "put 1 1.1.1 db 1 once join 1.1.2.2\n"
        ++ codes "heard 1.1.1.1 1.1.1 db 1 once-join 1.1.1.1,1.1.2.2 =\n"
        ++ codes "heard 1.1.2.2 1.1.1 db 1 once-join 1.1.1.1,1.1.2.2 =\n"
        ++ codes "put 1 1.1.1 db 2 begin message 1.1.1.1/3 =hi\n"
        ++ codes "heard 1.1.1.1 1.1.1 db 2 begin-message 1.1.1.1,1.1.2.2 =\n"
        ++ codes "heard 1.1.2.2 1.1.1 db 2 begin-message 1.1.1.1,1.1.2.2 =\n"
        ++ codes "put 1 1.1.1 db 3 phase 1.1.1/2 1 1.1.1.1=C,1.1.2.2=A =blue\n"
        ++ codes "heard 1.1.1.1 1.1.1 db 3 phase 1.1.1.1,1.1.2.2 =\n"
        ++ codes "heard 1.1.2.2 1.1.1 db 3 phase 1.1.1.1,1.1.2.2 =\n"
        ++ codes "put 1 1.1.1 db 4 approve 1.1.1/2 2 1.1.1.1=A,1.1.2.2=A -\n"
        ++ codes "heard 1.1.1.1 1.1.1 db 4 approve 1.1.1.1,1.1.2.2 =blue\n"
        ++ codes "heard 1.1.2.2 1.1.1 db 4 approve 1.1.1.1,1.1.2.2 =blue\n" }
{}

/// A join that is rejected.
#[tactic(auto, unfolding(crate::specs::Opens::all_opens))]
pub fn rejected_join()
    ensures { transcript (codes "heard")
        (codes "mode fixed\nnode 1\nbegin\nclient 1 a -\nclient 1 b A\njoin a db 1 phases=n\n"
        ++ codes "flow\nvote a db A\nflow\njoin b db 2 phases=n\nflow\nvote a db R\nflow\n")
        ≡ codes "heard 1.1.1.1 1.1.1 db 0 begin-join - =\n"
        ++ codes "heard 1.1.1.1 1.1.1 db 1 approve 1.1.1.1 =\n"
        ++ codes "heard 1.1.1.1 1.1.1 db 2 begin-join 1.1.1.1 =\n"
        ++ codes "heard 1.1.2.2 1.1.1 db 2 begin-join 1.1.1.1 =\n"
        ++ codes "heard 1.1.1.1 1.1.1 db 3 reject 1.1.1.1 =\n"
        ++ codes "heard 1.1.2.2 1.1.1 db 3 reject 1.1.1.1 =\n" }
{}

/// Who passes the time limit has the default vote.
#[tactic(auto, unfolding(crate::specs::Opens::all_opens))]
pub fn late_default_reject()
    ensures { transcript (codes "put")
        (codes "mode fixed\nnode 1\nbegin\nclient 1 a -\njoin a db 1 default=reject limit=3\n"
        ++ codes "flow\nstate a db n red\nflow\ntick 1\ntick 1\ntick 1\n")
        ≡ codes "put 1 1.1.1 db 0 once join 1.1.1.1 default=reject limit=3\n"
        ++ codes "put 1 1.1.1 db 1 begin state 1.1.1.1/2 =red\n"
        ++ codes "put 1 1.1.1 db 2 reject 1.1.1/1 1 1.1.1.1=LR\n" }
{}

/// Without a time limit a phase waits.
#[tactic(auto, unfolding(crate::specs::Opens::all_opens))]
pub fn no_limit_waits()
    ensures { transcript (codes "put,told") (codes
        "mode fixed\nnode 1\nbegin\nclient 1 a -\njoin a db 1\nflow\nstate a db n red\n"
        ++ codes "run 50\n") ≡ codes "put 1 1.1.1 db 0 once join 1.1.1.1\n"
        ++ codes "put 1 1.1.1 db 1 begin state 1.1.1.1/2 =red\n" }
{}

/// What a session refuses, and why.
#[tactic(auto, unfolding(crate::specs::Opens::all_opens))]
pub fn session_refusals()
    ensures { transcript (codes "refused") (codes
        "mode fixed\nnode 1\nbegin\nclient 1 a -\nclient 1 a A\nvote a db A\n"
        ++ codes "join a ggggggggggggggggggggggggggggggggg 1\njoin a HostMembership 1\n"
        ++ codes "join a db 1 limit=10001\njoin a db 1\nleave a db 1\nflow\njoin a db 2\n"
        ++ codes "state a db 1 vvvvvvvvvvvvvvvvvvvvvvvvvvvvvvvvvvvvvvvvvvvvvvvvvvvvvvvvvvvvvvvvv"
        ++ codes "vvvvvvvvvvvvvvvvvvvvvvvvvvvvvvvvvvvvvvvvvvvvvvvvvvvvvvvvvvvvvvvvvvvvvvvvvvvvvv"
        ++ codes "vvvvvvvvvvvvvvvvvvvvvvvvvvvvvvvvvvvvvvvvvvvvvvvvvvvvvvvvvvvvvvvvvvvvvvvvvvvvvv"
        ++ codes "vvvvvvvvvvvvvvvvvvvvvvvvvvvvvvvvvvvv\n"
        ++ codes "message a db 1 mmmmmmmmmmmmmmmmmmmmmmmmmmmmmmmmmmmmmmmmmmmmmmmmmmmmmmmmmmmmmmm"
        ++ codes "mmmmmmmmmmmmmmmmmmmmmmmmmmmmmmmmmmmmmmmmmmmmmmmmmmmmmmmmmmmmmmmmmmmmmmmmmmmmmm"
        ++ codes "mmmmmmmmmmmmmmmmmmmmmmmmmmmmmmmmmmmmmmmmmmmmmmmmmmmmmmmmmmmmmmmmmmmmmmmmmmmmmm"
        ++ codes "mmmmmmmmmmmmmmmmmmmmmmmmmmmmmmmmmmmmmmmmmmmmmmmmmmmmmmmmmmmmmmmmmmmmmmmmmmmmmm"
        ++ codes "mmmmmmmmmmmmmmmmmmmmmmmmmmmmmmmmmmmmmmmmmmmmmmmmmmmmmmmmmmmmmmmmmmmmmmmmmmmmmm"
        ++ codes "mmmmmmmmmmmmmmmmmmmmmmmmmmmmmmmmmmmmmmmmmmmmmmmmmmmmmmmmmmmmmmmmmmmmmmmmmmmmmm"
        ++ codes "mmmmmmmmmmmmmmmmmmmmmmmmmmmmmmmmmmmmmmmmmmmmmmmmmmmmmmmmmmmmmmmmmmmmmmmmmmmmmm"
        ++ codes "mmmmmmmmmmmmmmmmmmmmmmmmmmmmmmmmmmmmmmmmmmmmmmmmmmmmmmmmmmmmmmmmmmmmmmmmmmmmmm"
        ++ codes "mmmmmmmmmmmmmmmmmmmmmmmmmmmmmmmmmmmmmmmmmmmmmmmmmmmmmmmmmmmmmmmmmmmmmmmmmmmmmm"
        ++ codes "mmmmmmmmmmmmmmmmmmmmmmmmmmmmmmmmmmmmmmmmmmmmmmmmmmmmmmmmmmmmmmmmmmmmmmmmmmmmmm"
        ++ codes "mmmmmmmmmmmmmmmmmmmmmmmmmmmmmmmmmmmmmmmmmmmmmmmmmmmmmmmmmmmmmmmmmmmmmmmmmmmmmm"
        ++ codes "mmmmmmmmmmmmmmmmmmmmmmmmmmmmmmmmmmmmmmmmmmmmmmmmmmmmmmmmmmmmmmmmmmmmmmmmmmmmmm"
        ++ codes "mmmmmmmmmmmmmmmmmmmmmmmmmmmmmmmmmmmmmmmmmmmmmmmmmmmmmmmmmmmmmmmmmmmmmmmmmmmmmm"
        ++ codes "mmmmmmmmmmmmmmmmmmmmmmmmmm\nstate a db n x\nflow\nvote a db A\nvote a db A\n")
        ≡ codes "refused 1.a EXISTS\nrefused 1.a BAD_MEMBER_TOKEN\nrefused 1.a NAME_TOO_LONG\n"
        ++ codes "refused 1.a BAD_PARAMETER name\nrefused 1.a BAD_GROUP_ATTRIBUTES limit\n"
        ++ codes "refused 1.a COLLIDE 1\nrefused 1.a EXISTS\nrefused 1.a BAD_PARAMETER value\n"
        ++ codes "refused 1.a BAD_PARAMETER message\nrefused 1.a VOTE_NOT_EXPECTED\n" }
{}

/// A group name of 32 bytes is taken.
#[tactic(auto, unfolding(crate::specs::Opens::all_opens))]
pub fn name_at_its_limit()
    ensures { transcript (codes "asked")
        (codes "mode fixed\nnode 1\nbegin\nclient 1 a -\nclient 1 a A\nvote a db A\n"
        ++ codes "join a gggggggggggggggggggggggggggggggg 1\njoin a HostMembership 1\n"
        ++ codes "join a db 1 limit=10001\njoin a db 1\nleave a db 1\nflow\njoin a db 2\n"
        ++ codes "state a db 1 vvvvvvvvvvvvvvvvvvvvvvvvvvvvvvvvvvvvvvvvvvvvvvvvvvvvvvvvvvvvvvvvv"
        ++ codes "vvvvvvvvvvvvvvvvvvvvvvvvvvvvvvvvvvvvvvvvvvvvvvvvvvvvvvvvvvvvvvvvvvvvvvvvvvvvvv"
        ++ codes "vvvvvvvvvvvvvvvvvvvvvvvvvvvvvvvvvvvvvvvvvvvvvvvvvvvvvvvvvvvvvvvvvvvvvvvvvvvvvv"
        ++ codes "vvvvvvvvvvvvvvvvvvvvvvvvvvvvvvvvvvvv\n"
        ++ codes "message a db 1 mmmmmmmmmmmmmmmmmmmmmmmmmmmmmmmmmmmmmmmmmmmmmmmmmmmmmmmmmmmmmmm"
        ++ codes "mmmmmmmmmmmmmmmmmmmmmmmmmmmmmmmmmmmmmmmmmmmmmmmmmmmmmmmmmmmmmmmmmmmmmmmmmmmmmm"
        ++ codes "mmmmmmmmmmmmmmmmmmmmmmmmmmmmmmmmmmmmmmmmmmmmmmmmmmmmmmmmmmmmmmmmmmmmmmmmmmmmmm"
        ++ codes "mmmmmmmmmmmmmmmmmmmmmmmmmmmmmmmmmmmmmmmmmmmmmmmmmmmmmmmmmmmmmmmmmmmmmmmmmmmmmm"
        ++ codes "mmmmmmmmmmmmmmmmmmmmmmmmmmmmmmmmmmmmmmmmmmmmmmmmmmmmmmmmmmmmmmmmmmmmmmmmmmmmmm"
        ++ codes "mmmmmmmmmmmmmmmmmmmmmmmmmmmmmmmmmmmmmmmmmmmmmmmmmmmmmmmmmmmmmmmmmmmmmmmmmmmmmm"
        ++ codes "mmmmmmmmmmmmmmmmmmmmmmmmmmmmmmmmmmmmmmmmmmmmmmmmmmmmmmmmmmmmmmmmmmmmmmmmmmmmmm"
        ++ codes "mmmmmmmmmmmmmmmmmmmmmmmmmmmmmmmmmmmmmmmmmmmmmmmmmmmmmmmmmmmmmmmmmmmmmmmmmmmmmm"
        ++ codes "mmmmmmmmmmmmmmmmmmmmmmmmmmmmmmmmmmmmmmmmmmmmmmmmmmmmmmmmmmmmmmmmmmmmmmmmmmmmmm"
        ++ codes "mmmmmmmmmmmmmmmmmmmmmmmmmmmmmmmmmmmmmmmmmmmmmmmmmmmmmmmmmmmmmmmmmmmmmmmmmmmmmm"
        ++ codes "mmmmmmmmmmmmmmmmmmmmmmmmmmmmmmmmmmmmmmmmmmmmmmmmmmmmmmmmmmmmmmmmmmmmmmmmmmmmmm"
        ++ codes "mmmmmmmmmmmmmmmmmmmmmmmmmmmmmmmmmmmmmmmmmmmmmmmmmmmmmmmmmmmmmmmmmmmmmmmmmmmmmm"
        ++ codes "mmmmmmmmmmmmmmmmmmmmmmmmmmmmmmmmmmmmmmmmmmmmmmmmmmmmmmmmmmmmmmmmmmmmmmmmmmmmmm"
        ++ codes "mmmmmmmmmmmmmmmmmmmmmmmmmm\nstate a db n x\nflow\nvote a db A\nvote a db A\n")
        ≡ codes "asked 1.1.1.1 1 gggggggggggggggggggggggggggggggg join\n"
        ++ codes "asked 1.1.1.2 2 db join\nasked 1.1.1.2 3 db state\n" }
{}

/// A value of 256 bytes is taken.
#[tactic(auto, unfolding(crate::specs::Opens::all_opens))]
pub fn value_at_its_limit()
    ensures { transcript (codes "asked")
        (codes "mode fixed\nnode 1\nbegin\nclient 1 a -\nclient 1 a A\nvote a db A\n"
        ++ codes "join a ggggggggggggggggggggggggggggggggg 1\njoin a HostMembership 1\n"
        ++ codes "join a db 1 limit=10001\njoin a db 1\nleave a db 1\nflow\njoin a db 2\n"
        ++ codes "state a db 1 vvvvvvvvvvvvvvvvvvvvvvvvvvvvvvvvvvvvvvvvvvvvvvvvvvvvvvvvvvvvvvvvv"
        ++ codes "vvvvvvvvvvvvvvvvvvvvvvvvvvvvvvvvvvvvvvvvvvvvvvvvvvvvvvvvvvvvvvvvvvvvvvvvvvvvvv"
        ++ codes "vvvvvvvvvvvvvvvvvvvvvvvvvvvvvvvvvvvvvvvvvvvvvvvvvvvvvvvvvvvvvvvvvvvvvvvvvvvvvv"
        ++ codes "vvvvvvvvvvvvvvvvvvvvvvvvvvvvvvvvvvv\n"
        ++ codes "message a db 1 mmmmmmmmmmmmmmmmmmmmmmmmmmmmmmmmmmmmmmmmmmmmmmmmmmmmmmmmmmmmmmm"
        ++ codes "mmmmmmmmmmmmmmmmmmmmmmmmmmmmmmmmmmmmmmmmmmmmmmmmmmmmmmmmmmmmmmmmmmmmmmmmmmmmmm"
        ++ codes "mmmmmmmmmmmmmmmmmmmmmmmmmmmmmmmmmmmmmmmmmmmmmmmmmmmmmmmmmmmmmmmmmmmmmmmmmmmmmm"
        ++ codes "mmmmmmmmmmmmmmmmmmmmmmmmmmmmmmmmmmmmmmmmmmmmmmmmmmmmmmmmmmmmmmmmmmmmmmmmmmmmmm"
        ++ codes "mmmmmmmmmmmmmmmmmmmmmmmmmmmmmmmmmmmmmmmmmmmmmmmmmmmmmmmmmmmmmmmmmmmmmmmmmmmmmm"
        ++ codes "mmmmmmmmmmmmmmmmmmmmmmmmmmmmmmmmmmmmmmmmmmmmmmmmmmmmmmmmmmmmmmmmmmmmmmmmmmmmmm"
        ++ codes "mmmmmmmmmmmmmmmmmmmmmmmmmmmmmmmmmmmmmmmmmmmmmmmmmmmmmmmmmmmmmmmmmmmmmmmmmmmmmm"
        ++ codes "mmmmmmmmmmmmmmmmmmmmmmmmmmmmmmmmmmmmmmmmmmmmmmmmmmmmmmmmmmmmmmmmmmmmmmmmmmmmmm"
        ++ codes "mmmmmmmmmmmmmmmmmmmmmmmmmmmmmmmmmmmmmmmmmmmmmmmmmmmmmmmmmmmmmmmmmmmmmmmmmmmmmm"
        ++ codes "mmmmmmmmmmmmmmmmmmmmmmmmmmmmmmmmmmmmmmmmmmmmmmmmmmmmmmmmmmmmmmmmmmmmmmmmmmmmmm"
        ++ codes "mmmmmmmmmmmmmmmmmmmmmmmmmmmmmmmmmmmmmmmmmmmmmmmmmmmmmmmmmmmmmmmmmmmmmmmmmmmmmm"
        ++ codes "mmmmmmmmmmmmmmmmmmmmmmmmmmmmmmmmmmmmmmmmmmmmmmmmmmmmmmmmmmmmmmmmmmmmmmmmmmmmmm"
        ++ codes "mmmmmmmmmmmmmmmmmmmmmmmmmmmmmmmmmmmmmmmmmmmmmmmmmmmmmmmmmmmmmmmmmmmmmmmmmmmmmm"
        ++ codes "mmmmmmmmmmmmmmmmmmmmmmmmmm\nstate a db n x\nflow\nvote a db A\nvote a db A\n")
        ≡ codes "asked 1.1.1.1 1 db join\nasked 1.1.1.1 2 db state\n" }
{}

/// A message of 1,024 bytes is taken.
#[tactic(auto, unfolding(crate::specs::Opens::all_opens))]
pub fn message_at_its_limit()
    ensures { transcript (codes "asked")
        (codes "mode fixed\nnode 1\nbegin\nclient 1 a -\nclient 1 a A\nvote a db A\n"
        ++ codes "join a ggggggggggggggggggggggggggggggggg 1\njoin a HostMembership 1\n"
        ++ codes "join a db 1 limit=10001\njoin a db 1\nleave a db 1\nflow\njoin a db 2\n"
        ++ codes "state a db 1 vvvvvvvvvvvvvvvvvvvvvvvvvvvvvvvvvvvvvvvvvvvvvvvvvvvvvvvvvvvvvvvvv"
        ++ codes "vvvvvvvvvvvvvvvvvvvvvvvvvvvvvvvvvvvvvvvvvvvvvvvvvvvvvvvvvvvvvvvvvvvvvvvvvvvvvv"
        ++ codes "vvvvvvvvvvvvvvvvvvvvvvvvvvvvvvvvvvvvvvvvvvvvvvvvvvvvvvvvvvvvvvvvvvvvvvvvvvvvvv"
        ++ codes "vvvvvvvvvvvvvvvvvvvvvvvvvvvvvvvvvvvv\n"
        ++ codes "message a db 1 mmmmmmmmmmmmmmmmmmmmmmmmmmmmmmmmmmmmmmmmmmmmmmmmmmmmmmmmmmmmmmm"
        ++ codes "mmmmmmmmmmmmmmmmmmmmmmmmmmmmmmmmmmmmmmmmmmmmmmmmmmmmmmmmmmmmmmmmmmmmmmmmmmmmmm"
        ++ codes "mmmmmmmmmmmmmmmmmmmmmmmmmmmmmmmmmmmmmmmmmmmmmmmmmmmmmmmmmmmmmmmmmmmmmmmmmmmmmm"
        ++ codes "mmmmmmmmmmmmmmmmmmmmmmmmmmmmmmmmmmmmmmmmmmmmmmmmmmmmmmmmmmmmmmmmmmmmmmmmmmmmmm"
        ++ codes "mmmmmmmmmmmmmmmmmmmmmmmmmmmmmmmmmmmmmmmmmmmmmmmmmmmmmmmmmmmmmmmmmmmmmmmmmmmmmm"
        ++ codes "mmmmmmmmmmmmmmmmmmmmmmmmmmmmmmmmmmmmmmmmmmmmmmmmmmmmmmmmmmmmmmmmmmmmmmmmmmmmmm"
        ++ codes "mmmmmmmmmmmmmmmmmmmmmmmmmmmmmmmmmmmmmmmmmmmmmmmmmmmmmmmmmmmmmmmmmmmmmmmmmmmmmm"
        ++ codes "mmmmmmmmmmmmmmmmmmmmmmmmmmmmmmmmmmmmmmmmmmmmmmmmmmmmmmmmmmmmmmmmmmmmmmmmmmmmmm"
        ++ codes "mmmmmmmmmmmmmmmmmmmmmmmmmmmmmmmmmmmmmmmmmmmmmmmmmmmmmmmmmmmmmmmmmmmmmmmmmmmmmm"
        ++ codes "mmmmmmmmmmmmmmmmmmmmmmmmmmmmmmmmmmmmmmmmmmmmmmmmmmmmmmmmmmmmmmmmmmmmmmmmmmmmmm"
        ++ codes "mmmmmmmmmmmmmmmmmmmmmmmmmmmmmmmmmmmmmmmmmmmmmmmmmmmmmmmmmmmmmmmmmmmmmmmmmmmmmm"
        ++ codes "mmmmmmmmmmmmmmmmmmmmmmmmmmmmmmmmmmmmmmmmmmmmmmmmmmmmmmmmmmmmmmmmmmmmmmmmmmmmmm"
        ++ codes "mmmmmmmmmmmmmmmmmmmmmmmmmmmmmmmmmmmmmmmmmmmmmmmmmmmmmmmmmmmmmmmmmmmmmmmmmmmmmm"
        ++ codes "mmmmmmmmmmmmmmmmmmmmmmmmm\nstate a db n x\nflow\nvote a db A\nvote a db A\n")
        ≡ codes "asked 1.1.1.1 1 db join\nasked 1.1.1.1 2 db message\n" }
{}

/// A tick before that it has none.
#[tactic(auto, unfolding(crate::specs::Opens::all_opens))]
pub fn late_in_the_last_tick()
    ensures { transcript (codes "put")
        (codes "mode fixed\nnode 1\nbegin\nclient 1 a -\njoin a db 1 default=reject limit=3\n"
        ++ codes "flow\nstate a db n red\nflow\ntick 1\ntick 1\n")
        ≡ codes "put 1 1.1.1 db 0 once join 1.1.1.1 default=reject limit=3\n"
        ++ codes "put 1 1.1.1 db 1 begin state 1.1.1.1/2 =red\n" }
{}
