//! Views that change. Each function is a law: what the transcript of a script is.
ghost use Rattle.std.specs.Prelude.{◌≡◌, codes, ◌++◌};
ghost use Rattle.world_model.specs.Play.{transcript};

/// A message that one of two heard is heard by both in the next view.
#[tactic(auto, unfolding(crate::specs::Opens::all_opens))]
pub fn message_survives_a_stop()
    ensures { transcript (codes "in,base,put") (codes
        "mode asked\nnode 1\nnode 2\nnode 3\nbegin\nstart 1\nstart 2\nstart 3\n"
        ++ codes "ask 1 1 2 3\nflow\nclient 2 a A\nclient 3 c A\njoin a db 1\nflow\n"
        ++ codes "join c db 1\nflow\nmessage a db 1 hi\ndeliver 2 2 2\ndeliver 2 1 6\ndrop 2 3\n"
        ++ codes "stop 2\nask 1 1 3\nflow\n") ≡ codes
        "in 1 1.1.1 1.1\nin 2 1.2.1 2.1\nin 3 1.3.1 3.1\nin 1 2.1.1 1.1,2.1,3.1\n"
        ++ codes "in 2 2.1.1 1.1,2.1,3.1\nin 3 2.1.1 1.1,2.1,3.1\n"
        ++ codes "put 2 2.1.1 db 0 once join 2.1.1.1\nput 1 2.1.1 db 0 once join 2.1.1.1\n"
        ++ codes "put 3 2.1.1 db 0 once join 2.1.1.1\nput 2 2.1.1 db 1 once join 3.1.1.1\n"
        ++ codes "put 1 2.1.1 db 1 once join 3.1.1.1\nput 3 2.1.1 db 1 once join 3.1.1.1\n"
        ++ codes "put 2 2.1.1 db 2 once message 2.1.1.1/2 =hi\n"
        ++ codes "put 1 2.1.1 db 2 once message 2.1.1.1/2 =hi\nin 1 3.1.1 1.1,3.1\n"
        ++ codes "base 1 3.1.1 db 2.1.1 3 2.1.1.1,3.1.1.1 = 2.1.1.1 -\n"
        ++ codes "put 3 2.1.1 db 2 once message 2.1.1.1/2 =hi\nin 3 3.1.1 1.1,3.1\n"
        ++ codes "base 3 3.1.1 db 2.1.1 3 2.1.1.1,3.1.1.1 = 2.1.1.1 -\n"
        ++ codes "put 3 3.1.1 db 0 once fail 2.1.1.1:died\n"
        ++ codes "put 1 3.1.1 db 0 once fail 2.1.1.1:died\n" }
{}

/// Two nodes ask at once, and the greater view is entered.
#[tactic(auto, unfolding(crate::specs::Opens::all_opens))]
pub fn two_coordinators()
    ensures { transcript (codes "in")
        (codes "mode asked\nnode 1\nnode 2\nnode 3\nbegin\nstart 1\nstart 2\nstart 3\n"
        ++ codes "ask 1 1 2 3\ndeliver 1 2 1\ndeliver 1 3 1\ndeliver 2 1 1\ndeliver 3 1 1\n"
        ++ codes "ask 2 1 2 3\ndeliver 2 3 1\ndeliver 1 3 2\nflow\n")
        ≡ codes "in 1 1.1.1 1.1\nin 2 1.2.1 2.1\nin 3 1.3.1 3.1\nin 1 2.1.1 1.1,2.1,3.1\n"
        ++ codes "in 2 3.2.1 1.1,2.1,3.1\nin 1 3.2.1 1.1,2.1,3.1\nin 3 3.2.1 1.1,2.1,3.1\n" }
{}

/// The next leader ends what the last one began.
#[tactic(auto, unfolding(crate::specs::Opens::all_opens))]
pub fn takeover_in_mid_protocol()
    ensures { transcript (codes "put")
        (codes "mode asked\nnode 1\nnode 2\nnode 3\nbegin\nstart 1\nstart 2\nstart 3\n"
        ++ codes "ask 1 1 2 3\nflow\nclient 2 a -\nclient 1 b A\nclient 3 c A\njoin a db 1\n"
        ++ codes "flow\njoin b db 1\nflow\njoin c db 1\nflow\nstate c db n up\nflow\nstop 2\n"
        ++ codes "ask 1 1 3\nflow\n")
        ≡ codes "put 2 2.1.1 db 0 once join 2.1.1.1\nput 1 2.1.1 db 0 once join 2.1.1.1\n"
        ++ codes "put 3 2.1.1 db 0 once join 2.1.1.1\nput 2 2.1.1 db 1 once join 1.1.1.1\n"
        ++ codes "put 1 2.1.1 db 1 once join 1.1.1.1\nput 3 2.1.1 db 1 once join 1.1.1.1\n"
        ++ codes "put 2 2.1.1 db 2 once join 3.1.1.1\nput 1 2.1.1 db 2 once join 3.1.1.1\n"
        ++ codes "put 3 2.1.1 db 2 once join 3.1.1.1\n"
        ++ codes "put 2 2.1.1 db 3 begin state 3.1.1.1/2 =up\n"
        ++ codes "put 1 2.1.1 db 3 begin state 3.1.1.1/2 =up\n"
        ++ codes "put 3 2.1.1 db 3 begin state 3.1.1.1/2 =up\n"
        ++ codes "put 1 3.1.1 db 0 approve 2.1.1/3 1 2.1.1.1=FA,1.1.1.1=A,3.1.1.1=A -\n"
        ++ codes "put 1 3.1.1 db 1 once fail 2.1.1.1:died\n"
        ++ codes "put 3 3.1.1 db 0 approve 2.1.1/3 1 2.1.1.1=FA,1.1.1.1=A,3.1.1.1=A -\n"
        ++ codes "put 3 3.1.1 db 1 once fail 2.1.1.1:died\n" }
{}

/// Two sides of a partition merge, and one keeps the group.
#[tactic(auto, unfolding(crate::specs::Opens::all_opens))]
pub fn partition_and_merge()
    ensures { transcript (codes "told")
        (codes "mode asked\nnode 1\nnode 2\nnode 3\nnode 4\nnode 5\nbegin\nstart 1\nstart 2\n"
        ++ codes "start 3\nstart 4\nstart 5\nask 1 1 2 3 4 5\nflow\nclient 1 c1 A\n"
        ++ codes "join c1 db 1\nflow\nclient 2 c2 A\njoin c2 db 1\nflow\nclient 3 c3 A\n"
        ++ codes "join c3 db 1\nflow\nclient 4 c4 A\njoin c4 db 1\nflow\nclient 5 c5 A\n"
        ++ codes "join c5 db 1\nflow\nask 1 1 2 3\nask 4 4 5\nflow\nstate c4 db 1 south\n"
        ++ codes "state c1 db 1 north\nflow\nask 1 1 2 3 4 5\nflow\njoin c4 db 1\njoin c5 db 1\n"
        ++ codes "flow\n") ≡ codes "told 4.1.1.1 0 DISSOLVED\ntold 5.1.1.1 0 DISSOLVED\n" }
{}

/// What is heard on both sides.
#[tactic(auto, unfolding(crate::specs::Opens::all_opens))]
pub fn partition_and_merge_heard()
    ensures { transcript (codes "heard")
        (codes "mode asked\nnode 1\nnode 2\nnode 3\nnode 4\nnode 5\nbegin\nstart 1\nstart 2\n"
        ++ codes "start 3\nstart 4\nstart 5\nask 1 1 2 3 4 5\nflow\nclient 1 c1 A\n"
        ++ codes "join c1 db 1\nflow\nclient 2 c2 A\njoin c2 db 1\nflow\nclient 3 c3 A\n"
        ++ codes "join c3 db 1\nflow\nclient 4 c4 A\njoin c4 db 1\nflow\nclient 5 c5 A\n"
        ++ codes "join c5 db 1\nflow\nask 1 1 2 3\nask 4 4 5\nflow\nstate c4 db 1 south\n"
        ++ codes "state c1 db 1 north\nflow\nask 1 1 2 3 4 5\nflow\njoin c4 db 1\njoin c5 db 1\n"
        ++ codes "flow\n") ≡ codes "heard 1.1.1.1 2.1.1 db 0 once-join 1.1.1.1 =\n"
        ++ codes "heard 1.1.1.1 2.1.1 db 1 once-join 1.1.1.1,2.1.1.1 =\n"
        ++ codes "heard 2.1.1.1 2.1.1 db 1 once-join 1.1.1.1,2.1.1.1 =\n"
        ++ codes "heard 1.1.1.1 2.1.1 db 2 once-join 1.1.1.1,2.1.1.1,3.1.1.1 =\n"
        ++ codes "heard 2.1.1.1 2.1.1 db 2 once-join 1.1.1.1,2.1.1.1,3.1.1.1 =\n"
        ++ codes "heard 3.1.1.1 2.1.1 db 2 once-join 1.1.1.1,2.1.1.1,3.1.1.1 =\n"
        ++ codes "heard 1.1.1.1 2.1.1 db 3 once-join 1.1.1.1,2.1.1.1,3.1.1.1,4.1.1.1 =\n"
        ++ codes "heard 2.1.1.1 2.1.1 db 3 once-join 1.1.1.1,2.1.1.1,3.1.1.1,4.1.1.1 =\n"
        ++ codes "heard 3.1.1.1 2.1.1 db 3 once-join 1.1.1.1,2.1.1.1,3.1.1.1,4.1.1.1 =\n"
        ++ codes "heard 4.1.1.1 2.1.1 db 3 once-join 1.1.1.1,2.1.1.1,3.1.1.1,4.1.1.1 =\n"
        ++ codes "heard 1.1.1.1 2.1.1 db 4 once-join 1.1.1.1,2.1.1.1,3.1.1.1,4.1.1.1,5.1.1.1 =\n"
        ++ codes "heard 2.1.1.1 2.1.1 db 4 once-join 1.1.1.1,2.1.1.1,3.1.1.1,4.1.1.1,5.1.1.1 =\n"
        ++ codes "heard 3.1.1.1 2.1.1 db 4 once-join 1.1.1.1,2.1.1.1,3.1.1.1,4.1.1.1,5.1.1.1 =\n"
        ++ codes "heard 4.1.1.1 2.1.1 db 4 once-join 1.1.1.1,2.1.1.1,3.1.1.1,4.1.1.1,5.1.1.1 =\n"
        ++ codes "heard 5.1.1.1 2.1.1 db 4 once-join 1.1.1.1,2.1.1.1,3.1.1.1,4.1.1.1,5.1.1.1 =\n"
        ++ codes "heard 1.1.1.1 3.1.1 db 0 once-fail 1.1.1.1,2.1.1.1,3.1.1.1,5.1.1.1 =\n"
        ++ codes "heard 1.1.1.1 3.1.1 db 1 once-fail 1.1.1.1,2.1.1.1,3.1.1.1 =\n"
        ++ codes "heard 4.1.1.1 3.4.1 db 0 once-fail 2.1.1.1,3.1.1.1,4.1.1.1,5.1.1.1 =\n"
        ++ codes "heard 4.1.1.1 3.4.1 db 1 once-fail 3.1.1.1,4.1.1.1,5.1.1.1 =\n"
        ++ codes "heard 4.1.1.1 3.4.1 db 2 once-fail 4.1.1.1,5.1.1.1 =\n"
        ++ codes "heard 2.1.1.1 3.1.1 db 0 once-fail 1.1.1.1,2.1.1.1,3.1.1.1,5.1.1.1 =\n"
        ++ codes "heard 3.1.1.1 3.1.1 db 0 once-fail 1.1.1.1,2.1.1.1,3.1.1.1,5.1.1.1 =\n"
        ++ codes "heard 2.1.1.1 3.1.1 db 1 once-fail 1.1.1.1,2.1.1.1,3.1.1.1 =\n"
        ++ codes "heard 3.1.1.1 3.1.1 db 1 once-fail 1.1.1.1,2.1.1.1,3.1.1.1 =\n"
        ++ codes "heard 5.1.1.1 3.4.1 db 0 once-fail 2.1.1.1,3.1.1.1,4.1.1.1,5.1.1.1 =\n"
        ++ codes "heard 5.1.1.1 3.4.1 db 1 once-fail 3.1.1.1,4.1.1.1,5.1.1.1 =\n"
        ++ codes "heard 5.1.1.1 3.4.1 db 2 once-fail 4.1.1.1,5.1.1.1 =\n"
        ++ codes "heard 4.1.1.1 3.4.1 db 3 once-state 4.1.1.1,5.1.1.1 =south\n"
        ++ codes "heard 1.1.1.1 3.1.1 db 2 once-state 1.1.1.1,2.1.1.1,3.1.1.1 =north\n"
        ++ codes "heard 5.1.1.1 3.4.1 db 3 once-state 4.1.1.1,5.1.1.1 =south\n"
        ++ codes "heard 2.1.1.1 3.1.1 db 2 once-state 1.1.1.1,2.1.1.1,3.1.1.1 =north\n"
        ++ codes "heard 3.1.1.1 3.1.1 db 2 once-state 1.1.1.1,2.1.1.1,3.1.1.1 =north\n"
        ++ codes "heard 1.1.1.1 4.1.1 db 0 once-join 1.1.1.1,2.1.1.1,3.1.1.1,4.1.1.3 =north\n"
        ++ codes "heard 1.1.1.1 4.1.1 db 1 once-join 1.1.1.1,2.1.1.1,3.1.1.1,4.1.1.3,5.1.1.2 "
        ++ codes "=north\n"
        ++ codes "heard 2.1.1.1 4.1.1 db 0 once-join 1.1.1.1,2.1.1.1,3.1.1.1,4.1.1.3 =north\n"
        ++ codes "heard 3.1.1.1 4.1.1 db 0 once-join 1.1.1.1,2.1.1.1,3.1.1.1,4.1.1.3 =north\n"
        ++ codes "heard 4.1.1.3 4.1.1 db 0 once-join 1.1.1.1,2.1.1.1,3.1.1.1,4.1.1.3 =north\n"
        ++ codes "heard 2.1.1.1 4.1.1 db 1 once-join 1.1.1.1,2.1.1.1,3.1.1.1,4.1.1.3,5.1.1.2 "
        ++ codes "=north\n"
        ++ codes "heard 3.1.1.1 4.1.1 db 1 once-join 1.1.1.1,2.1.1.1,3.1.1.1,4.1.1.3,5.1.1.2 "
        ++ codes "=north\n"
        ++ codes "heard 4.1.1.3 4.1.1 db 1 once-join 1.1.1.1,2.1.1.1,3.1.1.1,4.1.1.3,5.1.1.2 "
        ++ codes "=north\n"
        ++ codes "heard 5.1.1.2 4.1.1 db 1 once-join 1.1.1.1,2.1.1.1,3.1.1.1,4.1.1.3,5.1.1.2 "
        ++ codes "=north\n" }
{}

/// Two nodes that were alone merge.
#[tactic(auto, unfolding(crate::specs::Opens::all_opens))]
pub fn both_alone_and_merge()
    ensures { transcript (codes "base,told") (codes
        "mode asked\nnode 1\nnode 2\nbegin\nstart 1\nstart 2\nask 1 1 2\nflow\n"
        ++ codes "client 1 a A\nclient 2 b A\njoin a db 1\nflow\njoin b db 1\nflow\nask 1 1\n"
        ++ codes "ask 2 2\nask 1 1 2\nflow\n") ≡ codes
        "base 1 3.1.1 db 2.1.1 2 1.1.1.1,2.1.1.1 = 2.1.1.1 -\n"
        ++ codes "base 2 3.2.1 db 2.1.1 2 1.1.1.1,2.1.1.1 = 1.1.1.1 -\n"
        ++ codes "base 1 4.1.1 db 3.2.1 1 2.1.1.1 = - -\ntold 1.1.1.1 0 DISSOLVED\n"
        ++ codes "base 2 4.1.1 db 3.2.1 1 2.1.1.1 = - -\n" }
{}

/// A refused coordinator asks above what refused it.
#[tactic(auto, unfolding(crate::specs::Opens::all_opens))]
pub fn floor_after_refuse()
    ensures { transcript (codes "in")
        (codes "mode asked\nnode 1\nnode 2\nbegin\nstart 1\nstart 2\nask 2 2\nask 2 2\n"
        ++ codes "ask 1 1 2\nflow\nask 1 1 2\nflow\n")
        ≡ codes "in 1 1.1.1 1.1\nin 2 1.2.1 2.1\nin 2 2.2.1 2.1\nin 2 3.2.1 2.1\n"
        ++ codes "in 1 4.1.1 1.1,2.1\nin 2 4.1.1 1.1,2.1\n" }
{}

/// A subscription to the hosts, and one to a group that is not known.
#[tactic(auto, unfolding(crate::specs::Opens::all_opens))]
pub fn subscriptions()
    ensures { transcript (codes "noted,refused")
        (codes "mode asked\nnode 1\nnode 2\nbegin\nstart 1\nstart 2\nclient 1 s A\n"
        ++ codes "subscribe s HostMembership\nsubscribe s db\nask 1 1 2\nflow\n")
        ≡ codes "refused 1.s UNKNOWN_GROUP\nnoted 1.s 2.1.1 HostMembership - 1.1,2.1 =\n" }
{}
