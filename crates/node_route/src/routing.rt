//! What a node does with an envelope.
ghost use Rattle.std.specs.Prelude.{◌≡◌, ◌↔◌, None, option_map};
ghost use Rattle.route_state.specs.Envelope.{envelope_of};
ghost use Rattle.route_state.specs.Way.{along, course, onward, way_of};
ghost use Rattle.node_route.specs.InPlace.{course_in, way_in};

use crate::envelope::Envelope;
use crate::ways::{Course, Way};
use node_reach::Reach;
use route_state::Front;

/// Where an envelope goes that is for another node.
#[tactic(auto, unfolding(route_state::specs::Way::onward))]
fn onward(reach: &Reach, front: Front) -> Course
    ensures { course_in result ≡ onward reach.now front }
{
    if front.hops == 0 {
        return Course::Ends;
    }
    match reach.next_hop(front.target) {
        None => Course::Ends,
        Some(to) => Course::GoesOn {
            to,
            front: Front {
                hops: front.hops - 1,
                origin: front.origin,
                target: front.target,
            },
        },
    }
}

/// Where an envelope goes from this node, by its front alone.
#[tactic(auto, unfolding(route_state::specs::Way::course))]
pub fn course(me: u8, reach: &Reach, front: Front) -> Course
    ensures { course_in result ≡ course me reach.now front }
{
    if front.target == me {
        return Course::Arrives;
    }
    onward(reach, front)
}

/// What becomes of an envelope whose front goes there.
fn along(inner: &[u8], course: Course) -> Way
    ensures { way_in result ≡ along inner.now (course_in course) }
{
    match course {
        Course::Arrives => Way::Own(inner),
        Course::GoesOn { to, front } => Way::Pass {
            to,
            hops: front.hops,
            origin: front.origin,
            target: front.target,
            inner,
        },
        Course::Ends => Way::Drop,
    }
}

/// What becomes of a datagram at this node, where it is an envelope; None exactly where it is none.
pub fn way<'a>(me: u8, reach: &Reach, bytes: &'a [u8]) -> Option<Way<'a>>
    ensures value { option_map way_in result ≡ way_of me reach.now (envelope_of bytes.now) }
    ensures none { result ≡ None ↔ envelope_of bytes.now ≡ None }
{
    match Envelope::read(bytes) {
        None => None,
        Some(envelope) => Some(along(envelope.inner, course(me, reach, envelope.front))),
    }
}
