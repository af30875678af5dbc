//! Packets as bytes, and how many of them a run may keep. Each function is a law.
ghost use Rattle.std.specs.Prelude.{◌≡◌, ◌∷◌, [], Some, None, true, false, codes, ◌++◌};
ghost use Rattle.node_state.specs.Bytes.{packet_of, bytes_of};
ghost use Rattle.world_model.specs.Play.{transcript};
ghost use Rattle.world_model.specs.Kept.{kept_of, kept_text, most_kept};
ghost use Rattle.script_examples.specs.Samples.{hex, heartbeat, all_packets, any_packet, any_prefix, packets, no_packets, plain_join, join_at_two, cut_rings};

/// A heartbeat is these bytes; without the last one, or with one more, they are no packet.
#[tactic(auto, unfolding(crate::specs::Opens::all_opens))]
pub fn heartbeat_bytes()
    ensures read { packet_of (hex (codes "52470101010201000000000100000009000000030300000001"))
        ≡ Some heartbeat }
    ensures spelled { bytes_of heartbeat ≡ hex (codes
        "52470101010201000000000100000009000000030300000001") }
    ensures shorter { packet_of (hex (codes "524701010102010000000001000000090000000303000000"))
        ≡ None }
    ensures longer { packet_of (hex (codes "5247010101020100000000010000000900000003030000000100"))
        ≡ None }
{}

/// Packets of each kind, each composed by hand from the formats.
#[tactic(auto, unfolding(crate::specs::Opens::all_opens))]
pub fn bytes_of_each_kind()
    ensures { all_packets packets ≡ true }
{}

/// Bytes of which each breaks one rule of the formats.
#[tactic(auto, unfolding(crate::specs::Opens::all_opens))]
pub fn bytes_that_are_no_packets()
    ensures { any_packet no_packets ≡ false }
{}

/// No part of the front of a heartbeat, an answer or an install is a packet.
#[tactic(auto, unfolding(crate::specs::Opens::all_opens))]
pub fn bytes_cut_short()
    ensures heartbeat { any_prefix (codes "52470101010201000000000100000009000000030300000001")
        ≡ false }
    ensures answer { any_prefix
        (codes "5247010a0101010000000001000000800000000201000000010000000101000000010202646200"
        ++ codes "000002010100000001000100000001000001000100000100000000000000000000000100000019"
        ++ codes "01010101000000010002000000020100010000010000000000046469736b000000000101000000"
        ++ codes "010001000000010000010001000001000000000000000000000000") ≡ false }
    ensures install { any_prefix
        (codes "5247010c0101010000000001000000580000000201000000010201000000010200000001020000"
        ++ codes "000101000000010000000101026462000000000101000000010001000000010000010001000001"
        ++ codes "0000000000000000000000000000000102000000010000000200") ≡ false }
{}

/// Garbage in a script is no packet.
#[tactic(auto, unfolding(crate::specs::Opens::all_opens))]
pub fn garbage_is_no_packet()
    ensures packet { transcript (codes "") (codes "mode fixed\nnode 1\nbegin\n"
        ++ codes "garbage 1 52470101010201000000000100000009000000030300000001\n")
        ≡ codes "hags: line 4: is a packet\n" }
    ensures shorter { transcript (codes "") (codes "mode fixed\nnode 1\nbegin\n"
        ++ codes "garbage 1 524701010102010000000001000000090000000303000000\n")
        ≡ codes "up 1 1\nin 1 1.1.1 1.1\n" }
{}

/// The request of a join has 68 bytes, and 72 at level 2.
#[tactic(auto, unfolding(crate::specs::Opens::all_opens))]
pub fn kept_bytes()
    ensures passed { kept_of 67 plain_join ≡ Some 68 }
    ensures within { kept_of 68 plain_join ≡ None }
    ensures at_two { kept_of 71 join_at_two ≡ Some 72 }
    ensures within_at_two { kept_of 72 join_at_two ≡ None }
{}

/// The event that passes the limit leaves no record.
#[tactic(auto, unfolding(crate::specs::Opens::all_opens))]
pub fn records_within_kept_bytes()
    ensures { kept_text 67 (codes "") plain_join ≡ codes "up 1 1\nin 1 1.1.1 1.1\n" }
{}

/// Within the limit the plain events of a script, one after another, make its transcript.
#[tactic(auto, unfolding(crate::specs::Opens::all_opens))]
pub fn events_of_a_script()
    ensures { kept_text most_kept (codes "") cut_rings ≡ transcript (codes "") cut_rings }
{}
