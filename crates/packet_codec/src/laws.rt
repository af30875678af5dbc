//! Laws of packets.
ghost use Rattle.std.specs.Prelude.{◌≡◌, Some};
ghost use Rattle.node_state.specs.declared.packet.Packet.{Packet};
ghost use Rattle.node_state.specs.Bytes.{packet_of, bytes_of};
ghost use Rattle.packet_codec.specs.Spelled.{IsSpelled};

/// A packet that has a spelling is read again from it.
#[tactic(auto, using(crate::proofs::BodyFormats::packet_read_again))]
pub fn packets_are_read_again()
    ensures { (p : Packet) → IsSpelled p → packet_of (bytes_of p) ≡ Some p }
{}
