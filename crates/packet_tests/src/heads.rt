//! Heads, fields and writers: that memory which is there is used, and bytes that were written elsewhere.
use rsct_packet::{
    Head, List, Mask, Member, Name, NoMemory, Packet, ProtoId, ProviderId, Providers, RingId, Text,
    ViewId, put_bytes, put_mask, put_member, put_name, put_optional_bytes, put_optional_proto,
    put_optional_u32, put_proto, put_provider, put_providers, put_ring, put_u8, put_u16, put_u32,
    put_u64, put_view, read_bytes, read_name, read_optional_bytes, read_optional_proto,
    read_optional_u32, read_proto, read_provider, read_providers, read_ring, read_u8, read_u16,
    read_u32, read_u64, read_view, write_head, write_head2,
};
use std::alloc::Global;
use std::process::Abort;

/// The heartbeat of node 2 to node 1 on network 1, in the ring `3.1.3`.
const HEARTBEAT: [u8; 25] = [
    0x52, 0x47, 0x01, 0x01, 0x01, 0x02, 0x01, 0x00, 0x00, 0x00, 0x00, 0x01, 0x00, 0x00, 0x00, 0x09,
    0x00, 0x00, 0x00, 0x03, 0x03, 0x00, 0x00, 0x00, 0x01,
];

const RING: RingId = RingId {
    leader: 3,
    inc: 1,
    number: 3,
};

const VIEW: ViewId = ViewId {
    number: 2,
    coord: 1,
    inc: 3,
};

const PROTO: ProtoId = ProtoId {
    view: VIEW,
    place: 4,
};

const FIRST: ProviderId = ProviderId {
    node: 1,
    inc: 1,
    instance: 7,
    join: 1,
};

const SECOND: ProviderId = ProviderId {
    node: 2,
    inc: 1,
    instance: 7,
    join: 1,
};

/// The head of the heartbeat.
const HEAD: Head = Head {
    kind: 1,
    network: 1,
    from: 2,
    to: 1,
    inc: 1,
};

/// Is it the heartbeat?
fn is_heartbeat(packet: &Packet<'_>) -> bool {
    packet.head == HEAD
        && packet.level == 1
        && read_ring(packet.body) == Some((RING, b"".as_slice()))
}

#[test]
fn a_heartbeat_is_read(rt: HostRuntime) {
    let packet = Packet::read(&HEARTBEAT).expect(&rt, "a packet");
    assert!(rt; is_heartbeat(&packet));
}

/// The heartbeat and one byte more.
fn longer(rt: &impl Abort, alloc: Global) -> Vec<u8> {
    let mut bytes = Vec::from_slice(alloc, &HEARTBEAT).expect(rt, "memory");
    bytes.push(0).expect(rt, "memory");
    bytes
}

#[test]
fn no_part_of_a_heartbeat_is_a_packet(rt: HostRuntime) {
    for n in 0..25usize {
        assert!(rt; Packet::read(&HEARTBEAT[..n]).is_none());
    }
    assert!(rt; Packet::read(&longer(&rt, rt.alloc())).is_none());
}

/// A packet of level 2 in domain 9, with this kind, that was written elsewhere.
fn level_2(kind: u8) -> [u8; 20] {
    [
        0x52, 0x47, 2, kind, 4, 32, 0, 0, 0, 0, 0, 7, 0, 0, 0, 0, 0, 0, 0, 9,
    ]
}

/// Is there a packet of level 2 with this kind?
fn has_level_2(kind: u8) -> bool {
    kind >= 14 && kind <= 21
}

/// Is it the packet of level 2 with this kind?
fn is_level_2(packet: &Packet<'_>, kind: u8) -> bool {
    let head = Head {
        kind,
        network: 4,
        from: 32,
        to: 0,
        inc: 7,
    };
    packet.head == head && packet.level == 2 && packet.domain == 9
}

/// Is the packet of level 2 read exactly where there is one?
fn is_read_at_level_2(kind: u8) -> bool {
    match Packet::read(&level_2(kind)) {
        Some(packet) => has_level_2(kind) && is_level_2(&packet, kind),
        None => !has_level_2(kind),
    }
}

#[test]
fn kinds_14_to_21_have_two_levels(rt: HostRuntime) {
    for kind in 1..24u8 {
        assert!(rt; is_read_at_level_2(kind));
    }
}

/// Is the head of level 2 written as it was elsewhere?
#[tactic(auto, unfolding(rsct_packet::specs::Packet::is_head))]
fn is_written_at_level_2(alloc: Global, kind: u8) -> Result<bool, NoMemory> {
    if kind < 14 || kind > 21 {
        return Ok(false);
    }
    let head = Head {
        kind,
        network: 4,
        from: 32,
        to: 0,
        inc: 7,
    };
    let mut bytes = Vec::new(alloc);
    write_head2(&mut bytes, &head, 9, 0)?;
    Ok(bytes.as_slice() == level_2(kind).as_slice())
}

#[test]
fn heads_of_level_2_are_written(rt: HostRuntime) {
    for kind in 14..22u8 {
        assert!(rt; is_written_at_level_2(rt.alloc(), kind).expect(&rt, "memory"));
    }
}

#[test]
#[tactic(auto, unfolding(rsct_packet::specs::Packet::is_head))]
fn a_heartbeat_is_written(rt: HostRuntime) {
    let mut bytes = Vec::new(rt.alloc());
    write_head(&mut bytes, &HEAD, 9).expect(&rt, "memory");
    put_ring(&mut bytes, RING).expect(&rt, "memory");
    assert!(rt; bytes.as_slice() == HEARTBEAT.as_slice());
}

/// Writes a field of each kind.
fn put_fields(out: &mut Vec<u8>) -> Result<(), NoMemory> {
    put_u8(out, 5)?;
    put_u16(out, 300)?;
    put_u32(out, 66000)?;
    put_u64(out, 70000)?;
    put_bytes(out, b"red")?;
    put_name(out, b"db")?;
    put_proto(out, PROTO)?;
    put_mask(out, Mask::empty().with(1).with(32))?;
    put_member(out, Member { node: 2, inc: 9 })?;
    Ok(())
}

/// What is behind the numbers that were written, where these bytes begin with them.
fn after_numbers(bytes: &[u8]) -> Option<&[u8]> {
    let (a, bytes) = read_u8(bytes)?;
    let (b, bytes) = read_u16(bytes)?;
    let (c, bytes) = read_u32(bytes)?;
    let (d, bytes) = read_u64(bytes)?;
    if a == 5 && b == 300 && c == 66000 && d == 70000 {
        Some(bytes)
    } else {
        None
    }
}

/// Are these the other fields that were written?
fn are_others(bytes: &[u8]) -> Option<bool> {
    let (text, bytes) = read_bytes(bytes)?;
    let (name, bytes) = read_name(bytes)?;
    let (proto, bytes) = read_proto(bytes)?;
    let are = text == b"red".as_slice() && name == b"db".as_slice() && proto == PROTO;
    Some(are && bytes == [128, 0, 0, 1, 2, 0, 0, 0, 9].as_slice())
}

#[test]
fn fields_are_written_and_read(rt: HostRuntime) {
    let mut out = Vec::new(rt.alloc());
    put_fields(&mut out).expect(&rt, "memory");
    let rest = after_numbers(&out).expect(&rt, "the numbers");
    assert!(rt; are_others(rest) == Some(true));
}

/// The providers of these bytes, to their end.
fn providers(rt: &impl Abort, alloc: Global, bytes: &[u8]) -> Providers {
    let (listed, rest) = read_providers(bytes).expect(rt, "providers");
    assert!(rt; rest.is_empty());
    Providers::of_listed(alloc, &listed).expect(rt, "memory")
}

/// Those of an equal list without this one.
fn without(
    rt: &impl Abort,
    alloc: Global,
    providers: &Providers,
    provider: ProviderId,
) -> Providers {
    let copy = providers.copy(alloc).expect(rt, "memory");
    copy.without(alloc, provider).expect(rt, "memory")
}

#[test]
fn providers_are_written_and_read(rt: HostRuntime) {
    let alloc = rt.alloc();
    let mut out = Vec::new(alloc);
    put_providers(&mut out, &[FIRST, SECOND]).expect(&rt, "memory");
    let ps = providers(&rt, alloc, &out);
    assert!(rt; ps.as_slice() == [FIRST, SECOND].as_slice());
    assert!(rt; without(&rt, alloc, &ps, FIRST).as_slice() == [SECOND].as_slice());
}

#[test]
fn providers_differ(rt: HostRuntime) {
    let mut out = Vec::new(rt.alloc());
    put_providers(&mut out, &[FIRST, FIRST]).expect(&rt, "memory");
    assert!(rt; read_providers(&out).is_none());
}

/// Is a name kept?
fn name_is_kept(alloc: Global) -> Result<bool, NoMemory> {
    match Name::of(alloc, b"db-1")? {
        None => Ok(false),
        Some(name) => Ok(name.copy(alloc)?.bytes() == b"db-1".as_slice()),
    }
}

/// Is a text kept?
fn text_is_kept(alloc: Global) -> Result<bool, NoMemory> {
    match Text::of(alloc, b"red")? {
        None => Ok(false),
        Some(text) => Ok(text.copy(alloc)?.bytes() == b"red".as_slice()),
    }
}

#[test]
fn names_and_texts_are_kept(rt: HostRuntime) {
    let alloc = rt.alloc();
    assert!(rt; name_is_kept(alloc).expect(&rt, "memory"));
    assert!(rt; Name::of(alloc, b"d b").expect(&rt, "memory").is_none());
    assert!(rt; text_is_kept(alloc).expect(&rt, "memory"));
}

/// Are the nodes of a mask listed in order?
fn nodes_are_listed(alloc: Global) -> Result<bool, NoMemory> {
    let nodes = Mask::empty().with(3).with(2).nodes(alloc)?;
    Ok(nodes.as_slice() == [2, 3].as_slice())
}

#[test]
fn nodes_of_masks_are_listed(rt: HostRuntime) {
    assert!(rt; nodes_are_listed(rt.alloc()).expect(&rt, "memory"));
}

/// Writes optional fields that are there, and two identities.
fn put_optional_fields(out: &mut Vec<u8>) -> Result<(), NoMemory> {
    put_optional_u32(out, Some(9))?;
    put_optional_bytes(out, Some(b"red"))?;
    put_optional_proto(out, Some(PROTO))?;
    put_view(out, VIEW)?;
    put_provider(out, FIRST)?;
    Ok(())
}

/// Are these the identities that were written?
fn are_ids(bytes: &[u8]) -> Option<bool> {
    let (view, bytes) = read_view(bytes)?;
    let (provider, _) = read_provider(bytes)?;
    Some(view == VIEW && provider == FIRST)
}

/// Are the optional fields there that were written, and after them the identities?
fn are_optional_fields(bytes: &[u8]) -> Option<bool> {
    let (n, bytes) = read_optional_u32(bytes)?;
    let (word, bytes) = read_optional_bytes(bytes)?;
    let (place, bytes) = read_optional_proto(bytes)?;
    let are_ids = are_ids(bytes)?;
    Some(n == Some(9) && word == Some(&b"red"[..]) && place == Some(PROTO) && are_ids)
}

#[test]
fn optional_fields_and_ids_are_written(rt: HostRuntime) {
    let mut out = Vec::new(rt.alloc());
    put_optional_fields(&mut out).expect(&rt, "memory");
    assert!(rt; are_optional_fields(&out) == Some(true));
}

/// The second provider, of both.
fn second(rt: &impl Abort, alloc: Global) -> Providers {
    let ps = Providers::one(alloc, FIRST).expect(rt, "memory");
    let qs = Providers::of(alloc, &[SECOND]).expect(rt, "memory");
    let both = ps.with(alloc, &qs).expect(rt, "memory");
    both.without_all(alloc, &[FIRST]).expect(rt, "memory")
}

/// Both providers, where the first was pushed.
fn pushed(rt: &impl Abort, alloc: Global) -> Providers {
    let mut ps = Providers::new(alloc);
    ps.push(FIRST).expect(rt, "memory");
    let qs = Providers::one(alloc, SECOND).expect(rt, "memory");
    ps.extend(&qs).expect(rt, "memory");
    ps
}

#[test]
fn lists_of_providers_grow(rt: HostRuntime) {
    let alloc = rt.alloc();
    assert!(rt; second(&rt, alloc).as_slice() == [SECOND].as_slice());
    assert!(rt; pushed(&rt, alloc).as_slice() == [FIRST, SECOND].as_slice());
}

#[test]
fn lists_grow(rt: HostRuntime) {
    let mut list = List::of(rt.alloc(), &[1u8]).expect(&rt, "memory");
    list.push(2).expect(&rt, "memory");
    list.extend(&[3]).expect(&rt, "memory");
    let mut more = List::of(rt.alloc(), &[4u8]).expect(&rt, "memory");
    list.append(&mut more).expect(&rt, "memory");
    assert!(rt; list.as_slice() == [1, 2, 3, 4].as_slice());
}
