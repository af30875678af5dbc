//! The bodies of packets, but for those that carry a group's proposals and entries. A body is read from all of
//! its bytes: `None` exactly where they are no spelling. What is handed out are parts of the datagram.
ghost use Rattle.std.specs.Prelude.{◌≡◌, Option, option_map};
ghost use Rattle.rsct_packet.specs.Reading.{Gives};
ghost use Rattle.rsct_packet.specs.Fields.{IsNode, IsMask, IsRing, IsView, mask_at, mask_text, ring_at, ring_text, view_at, view_text};
ghost use Rattle.packet_bodies.specs.Body.{whole_of, whole_at, IsWhole, IsOnlyWhole, IsRingMask, ring_mask_at, ring_mask_text, IsDeath, death_at, death_text, IsPrepare, prepare_at, prepare_text, IsRefuse, refuse_at, refuse_text, IsReportRow, report_row_at, report_row_text, are_report_rows, IsReport, report_at, report_text, IsLeader, leader_at, leader_text, IsAck, ack_at, ack_text, IsGone, gone_at, gone_text, what_at, IsQuery, query_at, query_text};
ghost use Rattle.packet_bodies.specs.Group.{IsGroup, group_at, group_text};

use crate::group::{GroupRef, read_group};
use rsct_packet::{
    Item, Listed, Mask, NoMemory, ProviderId, RingId, ViewId, known, read_list, read_mask,
    read_node, read_node_or_none, read_provider, read_ring, read_u8, read_u32, read_view,
};

/// A ring that is to be or is, and its nodes: the body of PTC and COMMIT.
#[derive(Clone, Copy, Debug, PartialEq, Eq)]
pub struct RingMask {
    pub ring: RingId,
    pub mask: Mask,
}

/// A node of the ring that is silent.
#[derive(Clone, Copy, Debug, PartialEq, Eq)]
pub struct Death {
    pub ring: RingId,
    pub node: u8,
}

/// A row of a report: the node's incarnation, the number of its own report, and the nodes in its rings.
#[derive(Clone, Copy, Debug, PartialEq, Eq)]
pub struct ReportRow {
    pub node: u8,
    pub inc: u32,
    pub seq: u32,
    pub mask: Mask,
}

/// A view that is to be, and the nodes asked for it.
#[derive(Clone, Copy, Debug, PartialEq, Eq)]
pub struct Prepare {
    pub view: ViewId,
    pub mask: Mask,
}

/// The sender has promised a view of this number, and refuses that view.
#[derive(Clone, Copy, Debug, PartialEq, Eq)]
pub struct Refuse {
    pub view: ViewId,
    pub number: u32,
}

/// The group's leader; 0 where no group more can be had.
#[derive(Drop)]
pub struct Leader<'a> {
    pub group: GroupRef<'a>,
    pub leader: u8,
}

/// How many entries of the group's list the sender holds.
#[derive(Drop)]
pub struct Ack<'a> {
    pub group: GroupRef<'a>,
    pub len: u32,
}

/// The client of this provider said goodbye.
#[derive(Drop)]
pub struct Gone<'a> {
    pub group: GroupRef<'a>,
    pub provider: ProviderId,
}

/// What a status asks for: the rings, the view, the groups, or the votes.
#[derive(Clone, Copy, Debug, PartialEq, Eq)]
pub enum What {
    Hats,
    Hagsns,
    Hagsgr,
    Hagsvote,
}

/// A status client's question; the reply repeats its number.
#[derive(Clone, Copy, Debug, PartialEq, Eq)]
pub struct Query {
    pub question: u32,
    pub what: What,
}

/// What was read, where nothing is left after it.
fn whole<X: Drop>(read: Option<(X, &[u8])>) -> Option<X>
    ensures { result ≡ whole_of (option_map (λ x. (x.0, x.1.now)) read.entry) }
{
    let (x, rest) = read?;
    if !rest.is_empty() {
        return None;
    }
    Some(x)
}

/// The ring of a HEARTBEAT, a PROCLAIM or a PTC_ACK.
#[tactic(auto, using(crate::proofs::BodyLaws::body_reads, rsct_packet::proofs::FieldLaws::ring_format))]
pub fn read_ring_body(bytes: &[u8]) -> Option<RingId>
    ensures value { result ≡ whole_at ring_at bytes.now }
    ensures found { IsWhole ring_text IsRing result bytes.now }
    ensures only { IsOnlyWhole ring_text IsRing result bytes.now }
{
    whole(read_ring(known(bytes)))
}

/// The nodes of a JOIN.
#[tactic(auto, using(crate::proofs::BodyLaws::body_reads, rsct_packet::proofs::FieldLaws::mask_format))]
pub fn read_mask_body(bytes: &[u8]) -> Option<Mask>
    ensures value { result ≡ whole_at mask_at bytes.now }
    ensures found { IsWhole mask_text IsMask result bytes.now }
    ensures only { IsOnlyWhole mask_text IsMask result bytes.now }
{
    whole(read_mask(known(bytes)))
}

/// The view of a TAKEN.
#[tactic(auto, using(crate::proofs::BodyLaws::body_reads, rsct_packet::proofs::FieldLaws::view_format))]
pub fn read_view_body(bytes: &[u8]) -> Option<ViewId>
    ensures value { result ≡ whole_at view_at bytes.now }
    ensures found { IsWhole view_text IsView result bytes.now }
    ensures only { IsOnlyWhole view_text IsView result bytes.now }
{
    whole(read_view(known(bytes)))
}

#[tactic(auto, unfolding(crate::specs::Body::ring_mask_at))]
fn read_ring_mask_parts(bytes: &[u8]) -> Option<(RingMask, &[u8])>
    ensures { Gives result (ring_mask_at bytes.now) }
{
    let (ring, bytes) = read_ring(bytes)?;
    let (mask, bytes) = read_mask(bytes)?;
    Some((RingMask { ring, mask }, bytes))
}

/// The ring and the nodes of a PTC or a COMMIT.
#[tactic(auto, using(crate::proofs::BodyLaws::body_reads, crate::proofs::BodyLaws::ring_mask_format))]
pub fn read_ring_mask(bytes: &[u8]) -> Option<RingMask>
    ensures value { result ≡ whole_at ring_mask_at bytes.now }
    ensures found { IsWhole ring_mask_text IsRingMask result bytes.now }
    ensures only { IsOnlyWhole ring_mask_text IsRingMask result bytes.now }
{
    whole(read_ring_mask_parts(known(bytes)))
}

#[tactic(auto, unfolding(crate::specs::Body::death_at))]
fn read_death_parts(bytes: &[u8]) -> Option<(Death, &[u8])>
    ensures { Gives result (death_at bytes.now) }
{
    let (ring, bytes) = read_ring(bytes)?;
    let (node, bytes) = read_node(bytes)?;
    Some((Death { ring, node }, bytes))
}

/// A DEATH.
#[tactic(auto, using(crate::proofs::BodyLaws::body_reads, crate::proofs::BodyLaws::death_format))]
pub fn read_death(bytes: &[u8]) -> Option<Death>
    ensures value { result ≡ whole_at death_at bytes.now }
    ensures found { IsWhole death_text IsDeath result bytes.now }
    ensures only { IsOnlyWhole death_text IsDeath result bytes.now }
{
    whole(read_death_parts(known(bytes)))
}

#[tactic(auto, unfolding(crate::specs::Body::prepare_at))]
fn read_prepare_parts(bytes: &[u8]) -> Option<(Prepare, &[u8])>
    ensures { Gives result (prepare_at bytes.now) }
{
    let (view, bytes) = read_view(bytes)?;
    let (mask, bytes) = read_mask(bytes)?;
    Some((Prepare { view, mask }, bytes))
}

/// A PREPARE.
#[tactic(auto, using(crate::proofs::BodyLaws::body_reads, crate::proofs::BodyLaws::prepare_format))]
pub fn read_prepare(bytes: &[u8]) -> Option<Prepare>
    ensures value { result ≡ whole_at prepare_at bytes.now }
    ensures found { IsWhole prepare_text IsPrepare result bytes.now }
    ensures only { IsOnlyWhole prepare_text IsPrepare result bytes.now }
{
    whole(read_prepare_parts(known(bytes)))
}

#[tactic(auto, unfolding(crate::specs::Body::refuse_at))]
fn read_refuse_parts(bytes: &[u8]) -> Option<(Refuse, &[u8])>
    ensures { Gives result (refuse_at bytes.now) }
{
    let (view, bytes) = read_view(bytes)?;
    let (number, bytes) = read_u32(bytes)?;
    Some((Refuse { view, number }, bytes))
}

/// A REFUSE.
#[tactic(auto, using(crate::proofs::BodyLaws::body_reads, crate::proofs::BodyLaws::refuse_format))]
pub fn read_refuse(bytes: &[u8]) -> Option<Refuse>
    ensures value { result ≡ whole_at refuse_at bytes.now }
    ensures found { IsWhole refuse_text IsRefuse result bytes.now }
    ensures only { IsOnlyWhole refuse_text IsRefuse result bytes.now }
{
    whole(read_refuse_parts(known(bytes)))
}

#[tactic(auto, unfolding(crate::specs::Body::report_row_at))]
fn read_report_row_parts(bytes: &[u8]) -> Option<(ReportRow, &[u8])>
    ensures { Gives result (report_row_at bytes.now) }
{
    let (node, bytes) = read_node(bytes)?;
    let (inc, bytes) = read_u32(bytes)?;
    let (seq, bytes) = read_u32(bytes)?;
    let (mask, bytes) = read_mask(bytes)?;
    Some((
        ReportRow {
            node,
            inc,
            seq,
            mask,
        },
        bytes,
    ))
}

impl Item for ReportRow {
    ghost read_at = { report_row_at };

    ghost text = { report_row_text };

    ghost fits = { IsReportRow };

    ghost can_put = { λ r. IsNode r.node };

    #[tactic(auto, using(rsct_packet::proofs::FormatLaws::format_reads, crate::proofs::BodyLaws::report_row_format))]
    fn read(bytes: &[u8]) -> Option<(ReportRow, &[u8])> {
        read_report_row_parts(known(bytes))
    }

    #[tactic(auto, unfolding(crate::specs::Body::report_row_text, rsct_packet::specs::Fields::u32_text, rsct_packet::specs::Fields::mask_text))]
    fn put(&self, out: &mut Vec<u8>) -> Result<(), NoMemory> {
        let row = *self;
        let [a, b, c, d] = row.inc.to_be_bytes();
        let [e, f, g, h] = row.seq.to_be_bytes();
        let [i, j, k, l] = row.mask.bits.to_be_bytes();
        out.extend_from_slice(&[row.node, a, b, c, d, e, f, g, h, i, j, k, l])?;
        Ok(())
    }

    #[tactic(auto, using(crate::proofs::BodyLaws::report_row_format))]
    fn format_law() {}
}

/// Do the nodes of the rows ascend?
fn are_report_rows(rows: &Listed<ReportRow>) -> bool
    ensures { result ≡ are_report_rows rows.now }
{
    let mut left = rows.copy();
    let mut last = 0;
    while let Some(row) = left.take_first() {
        if row.node <= last {
            return false;
        }
        last = row.node;
    }
    true
}

#[tactic(auto, unfolding(crate::specs::Body::report_at))]
fn read_report_parts(bytes: &[u8]) -> Option<(Listed<ReportRow>, &[u8])>
    ensures { Gives result (report_at bytes.now) }
{
    let (rows, bytes) = read_list::<ReportRow>(bytes)?;
    if !are_report_rows(&rows) {
        return None;
    }
    Some((rows, bytes))
}

/// The rows of a REPORT, nodes ascending, left where they stand.
#[tactic(auto, using(crate::proofs::BodyLaws::body_reads, crate::proofs::BodyLaws::report_format))]
pub fn read_report(bytes: &[u8]) -> Option<Listed<ReportRow>>
    ensures value { result ≡ whole_at report_at bytes.now }
    ensures found { IsWhole report_text IsReport result bytes.now }
    ensures only { IsOnlyWhole report_text IsReport result bytes.now }
{
    whole(read_report_parts(known(bytes)))
}

/// The group of a LOOKUP.
#[tactic(auto, using(crate::proofs::BodyLaws::body_reads, crate::proofs::BodyLaws::group_format))]
pub fn read_lookup(bytes: &[u8]) -> Option<GroupRef>
    ensures value { result ≡ whole_at group_at bytes.now }
    ensures found { IsWhole group_text IsGroup result bytes.now }
    ensures only { IsOnlyWhole group_text IsGroup result bytes.now }
{
    whole(read_group(known(bytes)))
}

#[tactic(auto, unfolding(crate::specs::Body::leader_at))]
fn read_leader_parts(bytes: &[u8]) -> Option<(Leader, &[u8])>
    ensures { Gives result (leader_at bytes.now) }
{
    let (group, bytes) = read_group(bytes)?;
    let (leader, bytes) = read_node_or_none(bytes)?;
    Some((Leader { group, leader }, bytes))
}

/// A NAME.
#[tactic(auto, using(crate::proofs::BodyLaws::body_reads, crate::proofs::BodyLaws::leader_format))]
pub fn read_leader(bytes: &[u8]) -> Option<Leader>
    ensures value { result ≡ whole_at leader_at bytes.now }
    ensures found { IsWhole leader_text IsLeader result bytes.now }
    ensures only { IsOnlyWhole leader_text IsLeader result bytes.now }
{
    whole(read_leader_parts(known(bytes)))
}

#[tactic(auto, unfolding(crate::specs::Body::ack_at))]
fn read_ack_parts(bytes: &[u8]) -> Option<(Ack, &[u8])>
    ensures { Gives result (ack_at bytes.now) }
{
    let (group, bytes) = read_group(bytes)?;
    let (len, bytes) = read_u32(bytes)?;
    Some((Ack { group, len }, bytes))
}

/// An ACK.
#[tactic(auto, using(crate::proofs::BodyLaws::body_reads, crate::proofs::BodyLaws::ack_format))]
pub fn read_ack(bytes: &[u8]) -> Option<Ack>
    ensures value { result ≡ whole_at ack_at bytes.now }
    ensures found { IsWhole ack_text IsAck result bytes.now }
    ensures only { IsOnlyWhole ack_text IsAck result bytes.now }
{
    whole(read_ack_parts(known(bytes)))
}

#[tactic(auto, unfolding(crate::specs::Body::gone_at))]
fn read_gone_parts(bytes: &[u8]) -> Option<(Gone, &[u8])>
    ensures { Gives result (gone_at bytes.now) }
{
    let (group, bytes) = read_group(bytes)?;
    let (provider, bytes) = read_provider(bytes)?;
    Some((Gone { group, provider }, bytes))
}

/// A GONE.
#[tactic(auto, using(crate::proofs::BodyLaws::body_reads, crate::proofs::BodyLaws::gone_format))]
pub fn read_gone(bytes: &[u8]) -> Option<Gone>
    ensures value { result ≡ whole_at gone_at bytes.now }
    ensures found { IsWhole gone_text IsGone result bytes.now }
    ensures only { IsOnlyWhole gone_text IsGone result bytes.now }
{
    whole(read_gone_parts(known(bytes)))
}

#[tactic(auto, unfolding(crate::specs::Body::what_at))]
fn read_what(bytes: &[u8]) -> Option<(What, &[u8])>
    ensures { Gives result (what_at bytes.now) }
{
    let (code, bytes) = read_u8(bytes)?;
    let what = match code {
        1 => What::Hats,
        2 => What::Hagsns,
        3 => What::Hagsgr,
        4 => What::Hagsvote,
        _ => return None,
    };
    Some((what, bytes))
}

#[tactic(auto, unfolding(crate::specs::Body::query_at))]
fn read_query_parts(bytes: &[u8]) -> Option<(Query, &[u8])>
    ensures { Gives result (query_at bytes.now) }
{
    let (question, bytes) = read_u32(bytes)?;
    let (what, bytes) = read_what(bytes)?;
    Some((Query { question, what }, bytes))
}

/// A QUERY.
#[tactic(auto, using(crate::proofs::BodyLaws::body_reads, crate::proofs::BodyLaws::query_format))]
pub fn read_query(bytes: &[u8]) -> Option<Query>
    ensures value { result ≡ whole_at query_at bytes.now }
    ensures found { IsWhole query_text IsQuery result bytes.now }
    ensures only { IsOnlyWhole query_text IsQuery result bytes.now }
{
    whole(read_query_parts(known(bytes)))
}
