//! What waits, and what is refused. Each function is a law: what the transcript of a script is.
ghost use Rattle.std.specs.Prelude.{◌≡◌, codes, ◌++◌};
ghost use Rattle.world_model.specs.Play.{transcript};

/// What collides with a protocol that runs is refused; joins wait.
#[tactic(auto, unfolding(crate::specs::Opens::all_opens))]
pub fn collide()
    ensures { transcript (codes "put,told") (codes
        "mode fixed\nnode 1\nbegin\nclient 1 a -\nclient 1 b -\njoin a db 1\n"
        ++ codes "join b db 2\nflow\nstate a db n red\nflow\nmessage b db 1 hi\nflow\n"
        ++ codes "vote a db A\nvote b db A\nflow\ndeliver 1 1 4\nflow\n")
        ≡ codes "put 1 1.1.1 db 0 once join 1.1.1.1\nput 1 1.1.1 db 1 once join 1.1.2.2\n"
        ++ codes "put 1 1.1.1 db 2 begin state 1.1.1.1/3 =red\ntold 1.1.2.2 4 COLLIDE 1.1.1/2\n"
        ++ codes "put 1 1.1.1 db 3 approve 1.1.1/2 1 1.1.1.1=A,1.1.2.2=A -\n" }
{}

/// Waiting joins that are batched begin together.
#[tactic(auto, unfolding(crate::specs::Opens::all_opens))]
pub fn batched_joins()
    ensures { transcript (codes "put")
        (codes "mode fixed\nnode 1\nbegin\nclient 1 a -\nclient 1 b A\nclient 1 c A\n"
        ++ codes "client 1 d A\njoin a db 1 batch=joins\nflow\nstate a db n red\nflow\n"
        ++ codes "join b db 2 batch=joins\njoin c db 3 batch=joins\njoin d db 4 batch=joins\n"
        ++ codes "flow\nvote a db A\nflow\n") ≡ codes
        "put 1 1.1.1 db 0 once join 1.1.1.1 batch=joins\n"
        ++ codes "put 1 1.1.1 db 1 begin state 1.1.1.1/2 =red\n"
        ++ codes "put 1 1.1.1 db 2 approve 1.1.1/1 1 1.1.1.1=A -\n"
        ++ codes "put 1 1.1.1 db 3 once join 1.1.2.3,1.1.3.4,1.1.4.5 batch=joins\n" }
{}

/// Waiting joins that are not batched begin one by one.
#[tactic(auto, unfolding(crate::specs::Opens::all_opens))]
pub fn joins_one_by_one()
    ensures { transcript (codes "put")
        (codes "mode fixed\nnode 1\nbegin\nclient 1 a -\nclient 1 b A\nclient 1 c A\n"
        ++ codes "client 1 d A\njoin a db 1\nflow\nstate a db n red\nflow\njoin b db 2\n"
        ++ codes "join c db 3\njoin d db 4\nflow\nvote a db A\nflow\n")
        ≡ codes "put 1 1.1.1 db 0 once join 1.1.1.1\n"
        ++ codes "put 1 1.1.1 db 1 begin state 1.1.1.1/2 =red\n"
        ++ codes "put 1 1.1.1 db 2 approve 1.1.1/1 1 1.1.1.1=A -\n"
        ++ codes "put 1 1.1.1 db 3 once join 1.1.2.3\nput 1 1.1.1 db 4 once join 1.1.3.4\n"
        ++ codes "put 1 1.1.1 db 5 once join 1.1.4.5\n" }
{}

/// A client that says goodbye leaves its groups.
#[tactic(auto, unfolding(crate::specs::Opens::all_opens))]
pub fn goodbye()
    ensures { transcript (codes "put,refused") (codes
        "mode fixed\nnode 1\nbegin\nclient 1 a A\nclient 1 b A\njoin a db 1\n"
        ++ codes "join b db 2\nflow\ngoodbye a\nflow\ngoodbye a\ngoodbye b\ngoodbye b\n")
        ≡ codes "put 1 1.1.1 db 0 once join 1.1.1.1\nput 1 1.1.1 db 1 once join 1.1.2.2\n"
        ++ codes "put 1 1.1.1 db 2 once fail 1.1.1.1:gone\nrefused 1.a BAD_CLIENT_TOKEN\n"
        ++ codes "refused 1.b NO_INIT\n" }
{}

/// What a leader refuses, and why.
#[tactic(auto, unfolding(crate::specs::Opens::all_opens))]
pub fn told()
    ensures { transcript (codes "told")
        (codes "mode fixed\nnode 1\nbegin\nclient 1 a A\nclient 1 b A\njoin a db 1\n"
        ++ codes "join b db 1\nflow\njoin b db 2 limit=9\nflow\nexpel a db 1 9.1.1.1\nflow\n")
        ≡ codes "told 1.1.1.2 2 DUPLICATE_INSTANCE_NUMBER\n"
        ++ codes "told 1.1.2.3 3 BAD_GROUP_ATTRIBUTES\ntold 1.1.1.1 4 NOT_A_MEMBER\n" }
{}

/// A 65th provider is refused.
pub fn group_full()
    ensures { transcript (codes "told")
        (codes "mode fixed\nnode 1\nnode 2\nbegin\nclient 1 a1 A\nclient 1 a2 A\n"
        ++ codes "client 1 a3 A\nclient 1 a4 A\nclient 1 a5 A\nclient 1 a6 A\nclient 1 a7 A\n"
        ++ codes "client 1 a8 A\nclient 1 a9 A\nclient 1 a10 A\nclient 1 a11 A\nclient 1 a12 A\n"
        ++ codes "client 1 a13 A\nclient 1 a14 A\nclient 1 a15 A\nclient 1 a16 A\n"
        ++ codes "client 1 a17 A\nclient 1 a18 A\nclient 1 a19 A\nclient 1 a20 A\n"
        ++ codes "client 1 a21 A\nclient 1 a22 A\nclient 1 a23 A\nclient 1 a24 A\n"
        ++ codes "client 1 a25 A\nclient 1 a26 A\nclient 1 a27 A\nclient 1 a28 A\n"
        ++ codes "client 1 a29 A\nclient 1 a30 A\nclient 1 a31 A\nclient 1 a32 A\n"
        ++ codes "client 1 a33 A\nclient 1 a34 A\nclient 1 a35 A\nclient 1 a36 A\n"
        ++ codes "client 1 a37 A\nclient 1 a38 A\nclient 1 a39 A\nclient 1 a40 A\n"
        ++ codes "client 2 b1 A\nclient 2 b2 A\nclient 2 b3 A\nclient 2 b4 A\nclient 2 b5 A\n"
        ++ codes "client 2 b6 A\nclient 2 b7 A\nclient 2 b8 A\nclient 2 b9 A\nclient 2 b10 A\n"
        ++ codes "client 2 b11 A\nclient 2 b12 A\nclient 2 b13 A\nclient 2 b14 A\n"
        ++ codes "client 2 b15 A\nclient 2 b16 A\nclient 2 b17 A\nclient 2 b18 A\n"
        ++ codes "client 2 b19 A\nclient 2 b20 A\nclient 2 b21 A\nclient 2 b22 A\n"
        ++ codes "client 2 b23 A\nclient 2 b24 A\nclient 2 b25 A\njoin a1 db 1\njoin a2 db 2\n"
        ++ codes "join a3 db 3\njoin a4 db 4\njoin a5 db 5\njoin a6 db 6\njoin a7 db 7\n"
        ++ codes "join a8 db 8\njoin a9 db 9\njoin a10 db 10\njoin a11 db 11\njoin a12 db 12\n"
        ++ codes "join a13 db 13\njoin a14 db 14\njoin a15 db 15\njoin a16 db 16\n"
        ++ codes "join a17 db 17\njoin a18 db 18\njoin a19 db 19\njoin a20 db 20\n"
        ++ codes "join a21 db 21\njoin a22 db 22\njoin a23 db 23\njoin a24 db 24\n"
        ++ codes "join a25 db 25\njoin a26 db 26\njoin a27 db 27\njoin a28 db 28\n"
        ++ codes "join a29 db 29\njoin a30 db 30\njoin a31 db 31\njoin a32 db 32\n"
        ++ codes "join a33 db 33\njoin a34 db 34\njoin a35 db 35\njoin a36 db 36\n"
        ++ codes "join a37 db 37\njoin a38 db 38\njoin a39 db 39\njoin a40 db 40\njoin b1 db 1\n"
        ++ codes "join b2 db 2\njoin b3 db 3\njoin b4 db 4\njoin b5 db 5\njoin b6 db 6\n"
        ++ codes "join b7 db 7\njoin b8 db 8\njoin b9 db 9\njoin b10 db 10\njoin b11 db 11\n"
        ++ codes "join b12 db 12\njoin b13 db 13\njoin b14 db 14\njoin b15 db 15\n"
        ++ codes "join b16 db 16\njoin b17 db 17\njoin b18 db 18\njoin b19 db 19\n"
        ++ codes "join b20 db 20\njoin b21 db 21\njoin b22 db 22\njoin b23 db 23\n"
        ++ codes "join b24 db 24\njoin b25 db 25\nflow\n")
        ≡ codes "told 2.1.25.25 25 GROUP_FULL 64\n" }
{}
