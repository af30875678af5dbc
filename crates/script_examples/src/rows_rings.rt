//! Rings, sources, levels and loads. Each function is a law: what the transcript of a script is.
ghost use Rattle.std.specs.Prelude.{◌≡◌, codes, ◌++◌};
ghost use Rattle.world_model.specs.Play.{transcript};

/// Three nodes form a ring, and go on without the one that stops.
#[tactic(auto, unfolding(crate::specs::Opens::all_opens))]
pub fn three_nodes_one_stops()
    ensures { transcript (codes "up,down,ring") (codes
        "mode rings\nnode 1\nnode 2\nnode 3\nbegin\nstart 1\nstart 2\nstart 3\nrun 2\n"
        ++ codes "stop 3\nrun 4\n")
        ≡ codes "up 1 1\nring 1 1 1.1.1 1 1\nup 2 1\nring 2 1 2.1.1 2 2\nup 3 1\n"
        ++ codes "ring 3 1 3.1.1 3 3\nring 2 1 2.1.2 1,2 1\nring 3 1 3.1.2 1,3 1\n"
        ++ codes "ring 1 1 3.1.2 1,3 3\nring 3 1 3.1.3 1,2,3 2\nring 1 1 3.1.3 1,2,3 3\n"
        ++ codes "ring 2 1 3.1.3 1,2,3 1\ndown 3\nring 2 1 2.1.3 1,2 1\nring 1 1 2.1.3 1,2 2\n" }
{}

/// A target takes only who has a source provider, and casts out who loses it.
#[tactic(auto, unfolding(crate::specs::Opens::all_opens))]
pub fn admission_and_cast_out()
    ensures { transcript (codes "put,told") (codes
        "mode fixed\nnode 1\nnode 2\nbegin\nclient 1 a A\nclient 2 b A\nclient 2 c A\n"
        ++ codes "join a disk 1\nflow\njoin b db 1 source=disk\nflow\njoin c disk 2\nflow\n"
        ++ codes "join b db 1 source=disk\nflow\nleave c disk 1\nflow\n")
        ≡ codes "put 1 1.1.1 disk 0 once join 1.1.1.1\nput 2 1.1.1 disk 0 once join 1.1.1.1\n"
        ++ codes "told 2.1.1.1 1 NO_SOURCE_GROUP_PROVIDER 1\n"
        ++ codes "put 1 1.1.1 disk 1 once join 2.1.2.2\nput 2 1.1.1 disk 1 once join 2.1.2.2\n"
        ++ codes "put 1 1.1.1 db 0 once join 2.1.1.3 source=disk src=2\n"
        ++ codes "put 2 1.1.1 db 0 once join 2.1.1.3 source=disk src=2\n"
        ++ codes "put 1 1.1.1 disk 2 once leave 2.1.2.2/4\n"
        ++ codes "put 1 1.1.1 db 1 once fail 2.1.1.3:cast\n"
        ++ codes "put 2 1.1.1 disk 2 once leave 2.1.2.2/4\n"
        ++ codes "put 2 1.1.1 db 1 once fail 2.1.1.3:cast\n" }
{}

/// Eight nodes with two networks, disks and databases: what is heard.
#[tactic(auto, unfolding(crate::specs::Opens::all_opens))]
pub fn disks_and_databases_heard()
    ensures { transcript (codes "heard")
        (codes "mode asked\nnode 1\nadapter 1 1 10.1.0.1\nadapter 1 2 10.2.0.1\nnode 2\n"
        ++ codes "adapter 2 1 10.1.0.2\nadapter 2 2 10.2.0.2\nnode 3\nadapter 3 1 10.1.0.3\n"
        ++ codes "adapter 3 2 10.2.0.3\nnode 4\nadapter 4 1 10.1.0.4\nadapter 4 2 10.2.0.4\n"
        ++ codes "node 5\nadapter 5 1 10.1.0.5\nadapter 5 2 10.2.0.5\nnode 6\n"
        ++ codes "adapter 6 1 10.1.0.6\nadapter 6 2 10.2.0.6\nnode 7\nadapter 7 1 10.1.0.7\n"
        ++ codes "adapter 7 2 10.2.0.7\nnode 8\nadapter 8 1 10.1.0.8\nadapter 8 2 10.2.0.8\n"
        ++ codes "begin\nstart 1\nstart 2\nstart 3\nstart 4\nstart 5\nstart 6\nstart 7\n"
        ++ codes "start 8\nask 1 1 2 3 4 5 6 7 8\nflow\nclient 1 d1 A\nclient 2 d2 A\n"
        ++ codes "client 2 b2 A\nclient 3 d3 A\nclient 3 b3 A\njoin d1 disks 1\nflow\n"
        ++ codes "join d2 disks 1\nflow\njoin d3 disks 1\nflow\njoin b2 db 2 source=disks\n"
        ++ codes "flow\njoin b3 db 2 source=disks\nflow\nstate b2 db n node2\nflow\nstop 2\n"
        ++ codes "ask 1 1 3 4 5 6 7 8\nflow\nstart 2\nask 1 1 2 3 4 5 6 7 8\nflow\n"
        ++ codes "client 2 e2 A\nclient 2 f2 A\njoin e2 disks 1\nflow\n"
        ++ codes "join f2 db 2 source=disks\nflow\n")
        ≡ codes "heard 1.1.1.1 2.1.1 disks 0 once-join 1.1.1.1 =\n"
        ++ codes "heard 1.1.1.1 2.1.1 disks 1 once-join 1.1.1.1,2.1.1.1 =\n"
        ++ codes "heard 2.1.1.1 2.1.1 disks 1 once-join 1.1.1.1,2.1.1.1 =\n"
        ++ codes "heard 1.1.1.1 2.1.1 disks 2 once-join 1.1.1.1,2.1.1.1,3.1.1.1 =\n"
        ++ codes "heard 2.1.1.1 2.1.1 disks 2 once-join 1.1.1.1,2.1.1.1,3.1.1.1 =\n"
        ++ codes "heard 3.1.1.1 2.1.1 disks 2 once-join 1.1.1.1,2.1.1.1,3.1.1.1 =\n"
        ++ codes "heard 2.1.2.2 2.1.1 db 0 once-join 2.1.2.2 =\n"
        ++ codes "heard 2.1.2.2 2.1.1 db 1 once-join 2.1.2.2,3.1.2.2 =\n"
        ++ codes "heard 3.1.2.2 2.1.1 db 1 once-join 2.1.2.2,3.1.2.2 =\n"
        ++ codes "heard 2.1.2.2 2.1.1 db 2 begin-state 2.1.2.2,3.1.2.2 =\n"
        ++ codes "heard 3.1.2.2 2.1.1 db 2 begin-state 2.1.2.2,3.1.2.2 =\n"
        ++ codes "heard 2.1.2.2 2.1.1 db 3 approve 2.1.2.2,3.1.2.2 =node2\n"
        ++ codes "heard 3.1.2.2 2.1.1 db 3 approve 2.1.2.2,3.1.2.2 =node2\n"
        ++ codes "heard 1.1.1.1 3.1.1 disks 0 once-fail 1.1.1.1,3.1.1.1 =\n"
        ++ codes "heard 3.1.2.2 3.1.1 db 0 once-fail 3.1.2.2 =node2\n"
        ++ codes "heard 3.1.1.1 3.1.1 disks 0 once-fail 1.1.1.1,3.1.1.1 =\n"
        ++ codes "heard 1.1.1.1 4.1.1 disks 0 once-join 1.1.1.1,3.1.1.1,2.2.1.1 =\n"
        ++ codes "heard 2.2.1.1 4.1.1 disks 0 once-join 1.1.1.1,3.1.1.1,2.2.1.1 =\n"
        ++ codes "heard 3.1.1.1 4.1.1 disks 0 once-join 1.1.1.1,3.1.1.1,2.2.1.1 =\n"
        ++ codes "heard 3.1.2.2 4.1.1 db 0 once-join 3.1.2.2,2.2.2.2 =node2\n"
        ++ codes "heard 2.2.2.2 4.1.1 db 0 once-join 3.1.2.2,2.2.2.2 =node2\n" }
{}

/// And nothing is told or refused.
#[tactic(auto, unfolding(crate::specs::Opens::all_opens))]
pub fn disks_and_databases_refused()
    ensures { transcript (codes "told,refused") (codes
        "mode asked\nnode 1\nadapter 1 1 10.1.0.1\nadapter 1 2 10.2.0.1\nnode 2\n"
        ++ codes "adapter 2 1 10.1.0.2\nadapter 2 2 10.2.0.2\nnode 3\nadapter 3 1 10.1.0.3\n"
        ++ codes "adapter 3 2 10.2.0.3\nnode 4\nadapter 4 1 10.1.0.4\nadapter 4 2 10.2.0.4\n"
        ++ codes "node 5\nadapter 5 1 10.1.0.5\nadapter 5 2 10.2.0.5\nnode 6\n"
        ++ codes "adapter 6 1 10.1.0.6\nadapter 6 2 10.2.0.6\nnode 7\nadapter 7 1 10.1.0.7\n"
        ++ codes "adapter 7 2 10.2.0.7\nnode 8\nadapter 8 1 10.1.0.8\nadapter 8 2 10.2.0.8\n"
        ++ codes "begin\nstart 1\nstart 2\nstart 3\nstart 4\nstart 5\nstart 6\nstart 7\n"
        ++ codes "start 8\nask 1 1 2 3 4 5 6 7 8\nflow\nclient 1 d1 A\nclient 2 d2 A\n"
        ++ codes "client 2 b2 A\nclient 3 d3 A\nclient 3 b3 A\njoin d1 disks 1\nflow\n"
        ++ codes "join d2 disks 1\nflow\njoin d3 disks 1\nflow\njoin b2 db 2 source=disks\n"
        ++ codes "flow\njoin b3 db 2 source=disks\nflow\nstate b2 db n node2\nflow\nstop 2\n"
        ++ codes "ask 1 1 3 4 5 6 7 8\nflow\nstart 2\nask 1 1 2 3 4 5 6 7 8\nflow\n"
        ++ codes "client 2 e2 A\nclient 2 f2 A\njoin e2 disks 1\nflow\n"
        ++ codes "join f2 db 2 source=disks\nflow\n") ≡ codes "" }
{}

/// At level 2 an entry announces who is late.
#[tactic(auto, unfolding(crate::specs::Opens::all_opens))]
pub fn late_is_announced()
    ensures { transcript (codes "put") (codes "mode fixed\nnode 1\nlevel 1 1\nbegin\nclient 1 a -\n"
        ++ codes "join a db 1 default=reject limit=3\nflow\nstate a db n red\nflow\ntick 1\n"
        ++ codes "tick 1\ntick 1\n")
        ≡ codes "put 1 1.1.1 db 0 once join 1.1.1.1 default=reject limit=3\n"
        ++ codes "put 1 1.1.1 db 1 begin state 1.1.1.1/2 =red\n"
        ++ codes "put 1 1.1.1 db 2 late 1.1.1/1 1 1.1.1.1\n"
        ++ codes "put 1 1.1.1 db 3 reject 1.1.1/1 1 1.1.1.1=LR\n" }
{}

/// A value of 257 bytes is refused at level 1.
#[tactic(auto, unfolding(crate::specs::Opens::all_opens))]
pub fn longer_values_refused()
    ensures { transcript (codes "put,refused") (codes
        "mode asked\nnode 1\nnode 2\nlevel 1 1\nbegin\nstart 1\nstart 2\nclient 1 a A\n"
        ++ codes "join a db 1\nflow\n"
        ++ codes "state a db 1 vvvvvvvvvvvvvvvvvvvvvvvvvvvvvvvvvvvvvvvvvvvvvvvvvvvvvvvvvvvvvvvvv"
        ++ codes "vvvvvvvvvvvvvvvvvvvvvvvvvvvvvvvvvvvvvvvvvvvvvvvvvvvvvvvvvvvvvvvvvvvvvvvvvvvvvv"
        ++ codes "vvvvvvvvvvvvvvvvvvvvvvvvvvvvvvvvvvvvvvvvvvvvvvvvvvvvvvvvvvvvvvvvvvvvvvvvvvvvvv"
        ++ codes "vvvvvvvvvvvvvvvvvvvvvvvvvvvvvvvvvvvv\nask 1 1 2\nflow\n"
        ++ codes "state a db 1 vvvvvvvvvvvvvvvvvvvvvvvvvvvvvvvvvvvvvvvvvvvvvvvvvvvvvvvvvvvvvvvvv"
        ++ codes "vvvvvvvvvvvvvvvvvvvvvvvvvvvvvvvvvvvvvvvvvvvvvvvvvvvvvvvvvvvvvvvvvvvvvvvvvvvvvv"
        ++ codes "vvvvvvvvvvvvvvvvvvvvvvvvvvvvvvvvvvvvvvvvvvvvvvvvvvvvvvvvvvvvvvvvvvvvvvvvvvvvvv"
        ++ codes "vvvvvvvvvvvvvvvvvvvvvvvvvvvvvvvvvvvv\n")
        ≡ codes "put 1 1.1.1 db 0 once join 1.1.1.1\n"
        ++ codes "put 1 2.1.1 db 0 once state 1.1.1.1/2 "
        ++ codes "=vvvvvvvvvvvvvvvvvvvvvvvvvvvvvvvvvvvvvvvvvvvvvvvvvvvvvvvvvvvvvvvvvvvvvvvvvvvvv"
        ++ codes "vvvvvvvvvvvvvvvvvvvvvvvvvvvvvvvvvvvvvvvvvvvvvvvvvvvvvvvvvvvvvvvvvvvvvvvvvvvvvv"
        ++ codes "vvvvvvvvvvvvvvvvvvvvvvvvvvvvvvvvvvvvvvvvvvvvvvvvvvvvvvvvvvvvvvvvvvvvvvvvvvvvvv"
        ++ codes "vvvvvvvvvvvvvvvvvvvvvvvv\n" ++ codes "put 2 2.1.1 db 0 once state 1.1.1.1/2 "
        ++ codes "=vvvvvvvvvvvvvvvvvvvvvvvvvvvvvvvvvvvvvvvvvvvvvvvvvvvvvvvvvvvvvvvvvvvvvvvvvvvvv"
        ++ codes "vvvvvvvvvvvvvvvvvvvvvvvvvvvvvvvvvvvvvvvvvvvvvvvvvvvvvvvvvvvvvvvvvvvvvvvvvvvvvv"
        ++ codes "vvvvvvvvvvvvvvvvvvvvvvvvvvvvvvvvvvvvvvvvvvvvvvvvvvvvvvvvvvvvvvvvvvvvvvvvvvvvvv"
        ++ codes "vvvvvvvvvvvvvvvvvvvvvvvv\nrefused 1.a BAD_PARAMETER value\n" }
{}

/// And taken at level 2.
#[tactic(auto, unfolding(crate::specs::Opens::all_opens))]
pub fn longer_values_taken()
    ensures { transcript (codes "put,refused") (codes
        "mode asked\nnode 1\nnode 2\nlevel 1 1\nlevel 2 1\nbegin\nstart 1\nstart 2\n"
        ++ codes "client 1 a A\njoin a db 1\nflow\n"
        ++ codes "state a db 1 vvvvvvvvvvvvvvvvvvvvvvvvvvvvvvvvvvvvvvvvvvvvvvvvvvvvvvvvvvvvvvvvv"
        ++ codes "vvvvvvvvvvvvvvvvvvvvvvvvvvvvvvvvvvvvvvvvvvvvvvvvvvvvvvvvvvvvvvvvvvvvvvvvvvvvvv"
        ++ codes "vvvvvvvvvvvvvvvvvvvvvvvvvvvvvvvvvvvvvvvvvvvvvvvvvvvvvvvvvvvvvvvvvvvvvvvvvvvvvv"
        ++ codes "vvvvvvvvvvvvvvvvvvvvvvvvvvvvvvvvvvvv\nask 1 1 2\nflow\n"
        ++ codes "state a db 1 vvvvvvvvvvvvvvvvvvvvvvvvvvvvvvvvvvvvvvvvvvvvvvvvvvvvvvvvvvvvvvvvv"
        ++ codes "vvvvvvvvvvvvvvvvvvvvvvvvvvvvvvvvvvvvvvvvvvvvvvvvvvvvvvvvvvvvvvvvvvvvvvvvvvvvvv"
        ++ codes "vvvvvvvvvvvvvvvvvvvvvvvvvvvvvvvvvvvvvvvvvvvvvvvvvvvvvvvvvvvvvvvvvvvvvvvvvvvvvv"
        ++ codes "vvvvvvvvvvvvvvvvvvvvvvvvvvvvvvvvvvvv\n")
        ≡ codes "put 1 1.1.1 db 0 once join 1.1.1.1\n"
        ++ codes "put 1 2.1.1 db 0 once state 1.1.1.1/2 "
        ++ codes "=vvvvvvvvvvvvvvvvvvvvvvvvvvvvvvvvvvvvvvvvvvvvvvvvvvvvvvvvvvvvvvvvvvvvvvvvvvvvv"
        ++ codes "vvvvvvvvvvvvvvvvvvvvvvvvvvvvvvvvvvvvvvvvvvvvvvvvvvvvvvvvvvvvvvvvvvvvvvvvvvvvvv"
        ++ codes "vvvvvvvvvvvvvvvvvvvvvvvvvvvvvvvvvvvvvvvvvvvvvvvvvvvvvvvvvvvvvvvvvvvvvvvvvvvvvv"
        ++ codes "vvvvvvvvvvvvvvvvvvvvvvvv\n" ++ codes "put 2 2.1.1 db 0 once state 1.1.1.1/2 "
        ++ codes "=vvvvvvvvvvvvvvvvvvvvvvvvvvvvvvvvvvvvvvvvvvvvvvvvvvvvvvvvvvvvvvvvvvvvvvvvvvvvv"
        ++ codes "vvvvvvvvvvvvvvvvvvvvvvvvvvvvvvvvvvvvvvvvvvvvvvvvvvvvvvvvvvvvvvvvvvvvvvvvvvvvvv"
        ++ codes "vvvvvvvvvvvvvvvvvvvvvvvvvvvvvvvvvvvvvvvvvvvvvvvvvvvvvvvvvvvvvvvvvvvvvvvvvvvvvv"
        ++ codes "vvvvvvvvvvvvvvvvvvvvvvvv\n" }
{}
