//! What becomes of an envelope at a node, and the envelope that is sent on.
ghost use Rattle.std.specs.Prelude.{◌≡◌, ◌++◌, OnOk, OnErr, IfOk};
ghost use Rattle.route_state.specs.Way.{passed_text, is_pass};
ghost use Rattle.node_route.specs.InPlace.{way_in};

use crate::envelope::put_envelope;
use route_state::Front;
use rsct_packet::NoMemory;
use std::alloc::Global;

/// Where an envelope goes from a node, by its front alone: it is where it was to go; or it goes on to another node, with this
/// front; or it ends here.
#[derive(Clone, Copy, Debug, PartialEq, Eq)]
pub enum Course {
    Arrives,
    GoesOn { to: u8, front: Front },
    Ends,
}

/// What becomes of an envelope at a node: its packet is for the node; or it is sent on to another node, with one hop less
/// left; or it is dropped.
#[derive(Clone, Copy, Debug, PartialEq, Eq)]
pub enum Way<'a> {
    Own(&'a [u8]),
    Pass {
        to: u8,
        hops: u8,
        origin: u8,
        target: u8,
        inner: &'a [u8],
    },
    Drop,
}

/// Appends the envelope that is sent on, and answers true; for any other way it appends nothing, and answers false. Where
/// memory has run out nothing is appended.
pub fn pass(_alloc: Global, way: &Way<'_>, out: &mut Vec<u8>) -> Result<bool, NoMemory>
    ensures ok { OnOk result (out.new.items ≡ out.old.items ++ passed_text (way_in way.now)) }
    ensures answer { IfOk result (λ sent. sent ≡ is_pass (way_in way.now)) }
    ensures err { OnErr result (out.new.items ≡ out.old.items) }
{
    match way {
        Way::Pass {
            hops,
            origin,
            target,
            inner,
            ..
        } => {
            let front = Front {
                hops: *hops,
                origin: *origin,
                target: *target,
            };
            put_envelope(out, front, inner)?;
            Ok(true)
        }
        Way::Own(_) => Ok(false),
        Way::Drop => Ok(false),
    }
}
