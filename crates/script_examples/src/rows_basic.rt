//! What one group and its list do. Each function is a law: what the transcript of a script is.
ghost use Rattle.std.specs.Prelude.{◌≡◌, codes, ◌++◌};
ghost use Rattle.world_model.specs.Play.{transcript};

/// A client joins a group, which is decided at once.
#[tactic(auto, unfolding(crate::specs::Opens::all_opens))]
pub fn one_join()
    ensures { transcript (codes "")
        (codes "mode fixed\nnode 1\nbegin\nclient 1 a A\njoin a db 7\nflow\nshow 1 hagsgr\n")
        ≡ codes "up 1 1\nin 1 1.1.1 1.1\nasked 1.1.7.1 1 db join\n"
        ++ codes "put 1 1.1.1 db 0 once join 1.1.7.1\n"
        ++ codes "heard 1.1.7.1 1.1.1 db 0 once-join 1.1.7.1 =\n"
        ++ codes "show 1 hagsgr db leader=1 len=1 members=1.1.7.1 value=\n" }
{}

/// Entries that come twice or out of order are put once, each at its place.
#[tactic(auto, unfolding(crate::specs::Opens::all_opens))]
pub fn repeats_and_reorder()
    ensures { transcript (codes "put")
        (codes "mode fixed\nnode 1\nnode 2\nbegin\nclient 1 a A\njoin a db 1\ndeliver 1 1 1\n"
        ++ codes "message a db 1 x\ndeliver 1 1 2\ndeliver 1 2 2\ndeliver 1 2 1\ndeliver 1 2 2\n"
        ++ codes "deliver 1 2 1\ndeliver 1 2 2\n")
        ≡ codes "put 1 1.1.1 db 0 once join 1.1.1.1\n"
        ++ codes "put 1 1.1.1 db 1 once message 1.1.1.1/2 =x\n"
        ++ codes "put 2 1.1.1 db 0 once join 1.1.1.1\n"
        ++ codes "put 2 1.1.1 db 1 once message 1.1.1.1/2 =x\n" }
{}

/// Bytes that are no packet do nothing.
#[tactic(auto, unfolding(crate::specs::Opens::all_opens))]
pub fn garbage()
    ensures { transcript (codes "") (codes "mode fixed\nnode 1\nbegin\ngarbage 1 5247\n")
        ≡ codes "up 1 1\nin 1 1.1.1 1.1\n" }
{}

/// A script that is none is refused by its first bad line.
#[tactic(auto, unfolding(crate::specs::Opens::all_opens))]
pub fn unknown_word()
    ensures { transcript (codes "") (codes "mode fixed\nnode 1\nbegin\njoi a db 1\n")
        ≡ codes "hags: line 4: unknown word\n" }
{}
