//! Settings of a node: what is read of them, and their first bad line. Each function is a law.
ghost use Rattle.std.specs.Prelude.{◌≡◌, ◌∷◌, [], Some, true, false, codes, ◌++◌};
ghost use Rattle.world_model.specs.declared.script.LineWhy.TheVariants.{MissingWord, UnknownNode, UnknownClient, OutOfPlace, NoSharedNetwork, IsAPacket, BoxedClient};
ghost use Rattle.world_model.specs.Reading.{IsNone, script_of};
ghost use Rattle.script_examples.specs.Samples.{served, asked, read_in, own_in, boxed_in, texts_in};

/// Without a `begin` the line after the last one lacks a word, be it the first or one behind a comment; a script
/// that is played needs none.
#[tactic(auto, unfolding(crate::specs::Opens::all_opens))]
pub fn settings_without_begin()
    ensures served { served 0 (codes "node 1\n") ≡ IsNone 2 MissingWord }
    ensures asked { asked (codes "node 1\n# one\n\n") ≡ IsNone 4 MissingWord }
    ensures empty { asked (codes "") ≡ IsNone 1 MissingWord }
    ensures cut { served 0 (codes "node 1\nbegin") ≡ IsNone 2 MissingWord }
    ensures played { read_in (script_of (codes "node 1\n")) ≡ Some false }
{}

/// At `begin` the node must have a line, also where another one has.
#[tactic(auto, unfolding(crate::specs::Opens::all_opens))]
pub fn settings_of_another_node()
    ensures served { served 0 (codes "node 2\nbegin\n") ≡ IsNone 2 UnknownNode }
    ensures asked { asked (codes "begin\n") ≡ IsNone 1 UnknownNode }
    ensures before { served 0 (codes "node 2\nnode 3\nadapter 2 1 10.0.0.2\nbegin\n")
        ≡ IsNone 4 UnknownNode }
    ensures alone { served 0 (codes "node 1\nadapter 1 1 10.0.0.1\nnode 2\nbegin\n")
        ≡ IsNone 4 NoSharedNetwork }
{}

/// Only mode rings has a place.
#[tactic(auto, unfolding(crate::specs::Opens::all_opens))]
pub fn settings_in_another_mode()
    ensures fixed { served 0 (codes "mode fixed\nnode 1\nbegin\n") ≡ IsNone 1 OutOfPlace }
    ensures asked { served 0 (codes "node 1\nmode asked\nbegin\n") ≡ IsNone 2 OutOfPlace }
    ensures rings { read_in (served 0 (codes "mode rings\nnode 1\nbegin\n")) ≡ Some true }
    ensures of_status { asked (codes "mode fixed\nnode 1\nbegin\n") ≡ IsNone 1 OutOfPlace }
{}

/// A daemon's lines are calls. Who asks reads any.
#[tactic(auto, unfolding(crate::specs::Opens::all_opens))]
pub fn settings_with_events()
    ensures flow { served 0 (codes "node 1\nbegin\nflow\n") ≡ IsNone 3 OutOfPlace }
    ensures garbage { served 0 (codes "node 1\nbegin\ngarbage 1 00\n") ≡ IsNone 3 OutOfPlace }
    ensures events { read_in (asked (codes "node 1\nbegin\ntick 1\nflow\nstop 1\n")) ≡ Some true }
    ensures is_packet { asked (codes "node 1\nbegin\n"
        ++ codes "garbage 1 52470101010201000000000100000009000000030300000001\n")
        ≡ IsNone 3 IsAPacket }
{}

/// Of the calls of an own client a daemon carries out `client`, `join` and `subscribe`; a client of another node
/// may call what it likes. A call of a client that has no line is one of an unknown client.
#[tactic(auto, unfolding(crate::specs::Opens::all_opens))]
pub fn settings_with_calls()
    ensures own { own_in (served 0
        (codes "node 1\nbegin\nclient 1 a A\njoin a db 7\nsubscribe a db\n")) ≡ 3 }
    ensures message { served 0 (codes "node 1\nbegin\nclient 1 a A\nmessage a db n x\n")
        ≡ IsNone 4 OutOfPlace }
    ensures goodbye { served 0 (codes "node 1\nbegin\nclient 1 a A\ngoodbye a\n")
        ≡ IsNone 4 OutOfPlace }
    ensures other { own_in (served 0
        (codes "node 1\nnode 2\nbegin\nclient 2 a A\njoin a db 7\n"
        ++ codes "goodbye a\nclient 1 b A\n")) ≡ 1 }
    ensures unknown { served 0 (codes "node 1\nbegin\njoin a db 7\n") ≡ IsNone 3 UnknownClient }
    ensures of_status { own_in (asked (codes "node 1\nbegin\nclient 1 a A\ngoodbye a\n")) ≡ 2 }
{}

/// Each own client whose votes are `boxed` takes an object; those of other nodes take none, and who asks has none
/// to give. No script that is played has one.
#[tactic(auto, unfolding(crate::specs::Opens::all_opens))]
pub fn settings_with_objects()
    ensures none { served 0 (codes "node 1\nbegin\nclient 1 a boxed\n") ≡ IsNone 3 BoxedClient }
    ensures one { boxed_in (served 1
        (codes "node 1\nbegin\nclient 1 a boxed\nclient 1 b A\n")) ≡ 1 }
    ensures two { served 1 (codes "node 1\nbegin\nclient 1 a boxed\nclient 1 a boxed\n")
        ≡ IsNone 4 BoxedClient }
    ensures other { own_in (served 0
        (codes "node 1\nnode 2\nbegin\nclient 2 a boxed\njoin a db 1\n")) ≡ 0 }
    ensures of_status { boxed_in (asked (codes "node 1\nbegin\nclient 1 a boxed\n")) ≡ 1 }
    ensures played { script_of (codes "node 1\nbegin\nclient 1 a boxed\n")
        ≡ IsNone 3 BoxedClient }
{}

/// The bytes of the lines of calls are kept, without their line feeds; those of other lines are not.
#[tactic(auto, unfolding(crate::specs::Opens::all_opens))]
pub fn texts_of_calls()
    ensures served { texts_in (served 0
        (codes "node 1\nbegin\n# one\nclient 1  a A\n\njoin a db 7 \n"))
        ≡ codes "client 1  a A" ∷ codes "join a db 7 " ∷ [] }
    ensures played { texts_in (script_of
        (codes "mode fixed\nnode 1\nbegin\nclient 1 a A\nflow\ngoodbye a\nflow\n"))
        ≡ codes "client 1 a A" ∷ codes "goodbye a" ∷ [] }
{}
