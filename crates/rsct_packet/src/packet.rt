//! Packets: a head and a body.
ghost use Rattle.std.specs.Prelude.{◌≡◌, Some, ◌≤◌, ◌++◌, IsTrue, IfSome, OnOk, OnErr, option_map};
ghost use Rattle.rsct_packet.specs.Reading.{Gives};
ghost use Rattle.rsct_packet.specs.Packet.{is_group_kind, is_level, is_sender, is_head, is_front, front_at, front_text, domain_at, head_text, PacketView, packet_view, IsPacket, packet_text, packet_at};

use crate::fronts::{u8_at, u16_at, u32_at};
use crate::ids::NoMemory;
use crate::mask::MAX_NODES;
use crate::reading::known;

/// What a packet's head says: its kind (1 to 23), the network (1 to 4) that it is sent on, its sender and
/// its receiver (1 to 32, or 0 for a status client), and the sender's incarnation, which is 0 exactly where
/// the sender is.
#[derive(Clone, Copy, Debug, PartialEq, Eq)]
pub struct Head {
    pub kind: u8,
    pub network: u8,
    pub from: u8,
    pub to: u8,
    pub inc: u32,
}

/// What both levels have at the front.
#[derive(Clone, Copy)]
struct Front {
    head: Head,
    level: u8,
    body_len: u32,
}

/// A packet of level 1, or of level 2 in a domain of at least 1; at level 1 the domain is 0. The body is a
/// part of the datagram.
#[derive(Clone, Copy)]
pub struct Packet<'a> {
    pub head: Head,
    pub level: u8,
    pub domain: u32,
    pub body: &'a [u8],
}

/// Is it a kind that occurs at both levels? These are the packets of a view's groups, 14 to 21.
pub fn is_group_kind(kind: u8) -> bool
    ensures { result ≡ is_group_kind kind }
{
    kind >= 14 && kind <= 21
}

fn is_level(level: u8, kind: u8) -> bool
    ensures { result ≡ is_level level kind }
{
    level == 1 || level == 2 && is_group_kind(kind)
}

/// A status client has neither number nor incarnation.
fn is_sender(from: u8, inc: u32) -> bool
    ensures { result ≡ is_sender from inc }
{
    if from == 0 {
        inc == 0
    } else {
        from <= MAX_NODES && inc >= 1
    }
}

/// Has this head a spelling?
#[tactic(auto, unfolding(crate::specs::Packet::is_head))]
pub fn is_head(head: Head) -> bool
    ensures { result ≡ is_head head }
{
    head.kind >= 1
        && head.kind <= 23
        && head.network >= 1
        && head.network <= 4
        && is_sender(head.from, head.inc)
        && head.to <= MAX_NODES
}

#[tactic(auto, unfolding(crate::specs::Packet::is_front))]
fn is_front(front: Front) -> bool
    ensures { result ≡ is_front front }
{
    is_head(front.head) && is_level(front.level, front.head.kind)
}

#[tactic(auto, unfolding(crate::specs::Packet::front_at))]
fn read_front(bytes: &[u8]) -> Option<(Front, &[u8])>
    ensures { Gives result (front_at bytes.now) }
{
    let (mark, bytes) = u16_at(bytes)?;
    let (level, bytes) = u8_at(bytes)?;
    let (kind, bytes) = u8_at(bytes)?;
    let (network, bytes) = u8_at(bytes)?;
    let (from, bytes) = u8_at(bytes)?;
    let (to, bytes) = u8_at(bytes)?;
    let (zero, bytes) = u8_at(bytes)?;
    let (inc, bytes) = u32_at(bytes)?;
    let (body_len, bytes) = u32_at(bytes)?;
    if mark != 0x5247 || zero != 0 {
        return None;
    }
    let front = Front {
        head: Head {
            kind,
            network,
            from,
            to,
            inc,
        },
        level,
        body_len,
    };
    if !is_front(front) {
        return None;
    }
    Some((front, bytes))
}

fn read_domain(level: u8, bytes: &[u8]) -> Option<(u32, &[u8])>
    ensures { Gives result (domain_at level bytes.now) }
{
    if level == 1 {
        return Some((0, bytes));
    }
    let (domain, bytes) = u32_at(bytes)?;
    if domain < 1 {
        return None;
    }
    Some((domain, bytes))
}

#[tactic(auto, unfolding(crate::specs::Packet::packet_at))]
fn read_alone(bytes: &[u8]) -> Option<Packet>
    ensures { option_map packet_view result ≡ packet_at bytes.now }
{
    let (front, bytes) = read_front(bytes)?;
    let (domain, body) = read_domain(front.level, bytes)?;
    if front.body_len as usize != body.len() {
        return None;
    }
    Some(Packet {
        head: front.head,
        level: front.level,
        domain,
        body,
    })
}

impl<'a> Packet<'a> {
    /// The packet of a datagram; `None` exactly where the bytes are not a head followed by just as many bytes
    /// as it names for the body.
    #[tactic(auto, using(crate::proofs::PacketLaws::read_found, crate::proofs::PacketLaws::read_only))]
    pub fn read(bytes: &'a [u8]) -> Option<Packet<'a>>
        ensures value { option_map packet_view result ≡ packet_at bytes.now }
        ensures found { IfSome result (λ p. IsPacket (packet_view p)
            × (bytes.now ≡ packet_text (packet_view p))) }
        ensures only { (p : PacketView) → IsPacket p → bytes.now ≡ packet_text p
            → option_map packet_view result ≡ Some p }
    {
        read_alone(known(bytes))
    }
}

/// What both levels have at the front, as bytes.
#[tactic(auto, unfolding(crate::specs::Packet::front_text, crate::specs::Fields::u32_text, crate::specs::Fields::u16_text))]
fn front_bytes(front: Front) -> [u8; 16]
    ensures { result ≡ front_text front }
{
    let [a, b, c, d] = front.head.inc.to_be_bytes();
    let [i, j, k, l] = front.body_len.to_be_bytes();
    [
        0x52,
        0x47,
        front.level,
        front.head.kind,
        front.head.network,
        front.head.from,
        front.head.to,
        0,
        a,
        b,
        c,
        d,
        i,
        j,
        k,
        l,
    ]
}

/// A head of level 1, for a body of so many bytes.
#[tactic(auto, unfolding(crate::specs::Packet::head_text))]
pub fn write_head(out: &mut Vec<u8>, head: &Head, body_len: u32) -> Result<(), NoMemory>
    requires { IsTrue (is_head head.now) }
    ensures ok { OnOk result (out.new.items ≡ out.old.items ++ head_text head.now 1 0 body_len) }
    ensures err { OnErr result (out.new.items ≡ out.old.items) }
{
    let front = Front {
        head: *head,
        level: 1,
        body_len,
    };
    out.extend_from_slice(&front_bytes(front))?;
    Ok(())
}

/// A head of level 2 in a domain, for a body of so many bytes.
#[tactic(auto, unfolding(crate::specs::Packet::head_text, crate::specs::Fields::u32_text))]
pub fn write_head2(
    out: &mut Vec<u8>,
    head: &Head,
    domain: u32,
    body_len: u32,
) -> Result<(), NoMemory>
    requires passes { IsTrue (is_head head.now) }
    requires kind { IsTrue (is_group_kind head.now.kind) }
    requires domain { 1 ≤ domain }
    ensures ok { OnOk result (out.new.items ≡ out.old.items
        ++ head_text head.now 2 domain body_len) }
    ensures err { OnErr result (out.new.items ≡ out.old.items) }
{
    let before = out.len();
    let front = Front {
        head: *head,
        level: 2,
        body_len,
    };
    out.extend_from_slice(&front_bytes(front))?;
    if let Err(e) = out.extend_from_slice(&domain.to_be_bytes()) {
        out.truncate(before);
        return Err(NoMemory::from(e));
    }
    Ok(())
}
