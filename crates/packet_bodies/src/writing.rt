//! Writers of bodies: each takes the one spelling to the end of `out`, and leaves `out` as before where memory
//! has run out.
ghost use Rattle.std.specs.Prelude.{◌≡◌, ◌++◌, ◌≤◌, IsTrue, length, take, OnOk, OnErr};
ghost use Rattle.rsct_packet.specs.Format.{EachFits};
ghost use Rattle.rsct_packet.specs.Text.{IsName};
ghost use Rattle.rsct_packet.specs.Fields.{IsNode, IsNodeOrNone};
ghost use Rattle.packet_bodies.specs.Body.{ring_mask_text, death_text, prepare_text, refuse_text, are_report_rows, report_text, leader_text, ack_text, gone_text, what_code, query_text};

use crate::body::{Ack, Death, Gone, Leader, Prepare, Query, Refuse, ReportRow, RingMask, What};
use crate::group::put_group;
use rsct_packet::{
    NoMemory, put_list, put_mask, put_provider, put_ring, put_u8, put_u32, put_view,
};

/// Cuts off again what a writer wrote before memory ran out.
fn settled(out: &mut Vec<u8>, before: usize, done: Result<(), NoMemory>) -> Result<(), NoMemory>
    requires { before ≤ length out.old.items }
    ensures same { result ≡ done }
    ensures ok { OnOk result (out.new.items ≡ out.old.items) }
    ensures err { OnErr result (out.new.items ≡ take before out.old.items) }
{
    if done.is_err() {
        out.truncate(before);
    }
    done
}

#[tactic(auto, unfolding(crate::specs::Body::ring_mask_text))]
fn put_ring_mask_parts(out: &mut Vec<u8>, body: RingMask) -> Result<(), NoMemory>
    requires { IsNode body.ring.leader }
    ensures ok { OnOk result (out.new.items ≡ out.old.items ++ ring_mask_text body) }
    ensures err { OnErr result (take (length out.old.items) out.new.items ≡ out.old.items) }
{
    put_ring(out, body.ring)?;
    put_mask(out, body.mask)
}

/// A PTC or a COMMIT.
pub fn put_ring_mask(out: &mut Vec<u8>, body: RingMask) -> Result<(), NoMemory>
    requires { IsNode body.ring.leader }
    ensures ok { OnOk result (out.new.items ≡ out.old.items ++ ring_mask_text body) }
    ensures err { OnErr result (out.new.items ≡ out.old.items) }
{
    let before = out.len();
    let done = put_ring_mask_parts(out, body);
    settled(out, before, done)
}

#[tactic(auto, unfolding(crate::specs::Body::death_text))]
fn put_death_parts(out: &mut Vec<u8>, body: Death) -> Result<(), NoMemory>
    requires leader { IsNode body.ring.leader }
    requires node { IsNode body.node }
    ensures ok { OnOk result (out.new.items ≡ out.old.items ++ death_text body) }
    ensures err { OnErr result (take (length out.old.items) out.new.items ≡ out.old.items) }
{
    put_ring(out, body.ring)?;
    put_u8(out, body.node)
}

/// A DEATH.
pub fn put_death(out: &mut Vec<u8>, body: Death) -> Result<(), NoMemory>
    requires leader { IsNode body.ring.leader }
    requires node { IsNode body.node }
    ensures ok { OnOk result (out.new.items ≡ out.old.items ++ death_text body) }
    ensures err { OnErr result (out.new.items ≡ out.old.items) }
{
    let before = out.len();
    let done = put_death_parts(out, body);
    settled(out, before, done)
}

#[tactic(auto, unfolding(crate::specs::Body::prepare_text))]
fn put_prepare_parts(out: &mut Vec<u8>, body: Prepare) -> Result<(), NoMemory>
    requires { IsNode body.view.coord }
    ensures ok { OnOk result (out.new.items ≡ out.old.items ++ prepare_text body) }
    ensures err { OnErr result (take (length out.old.items) out.new.items ≡ out.old.items) }
{
    put_view(out, body.view)?;
    put_mask(out, body.mask)
}

/// A PREPARE.
pub fn put_prepare(out: &mut Vec<u8>, body: Prepare) -> Result<(), NoMemory>
    requires { IsNode body.view.coord }
    ensures ok { OnOk result (out.new.items ≡ out.old.items ++ prepare_text body) }
    ensures err { OnErr result (out.new.items ≡ out.old.items) }
{
    let before = out.len();
    let done = put_prepare_parts(out, body);
    settled(out, before, done)
}

#[tactic(auto, unfolding(crate::specs::Body::refuse_text))]
fn put_refuse_parts(out: &mut Vec<u8>, body: Refuse) -> Result<(), NoMemory>
    requires { IsNode body.view.coord }
    ensures ok { OnOk result (out.new.items ≡ out.old.items ++ refuse_text body) }
    ensures err { OnErr result (take (length out.old.items) out.new.items ≡ out.old.items) }
{
    put_view(out, body.view)?;
    put_u32(out, body.number)
}

/// A REFUSE.
pub fn put_refuse(out: &mut Vec<u8>, body: Refuse) -> Result<(), NoMemory>
    requires { IsNode body.view.coord }
    ensures ok { OnOk result (out.new.items ≡ out.old.items ++ refuse_text body) }
    ensures err { OnErr result (out.new.items ≡ out.old.items) }
{
    let before = out.len();
    let done = put_refuse_parts(out, body);
    settled(out, before, done)
}

/// A REPORT.
#[tactic(auto, unfolding(crate::specs::Body::report_text))]
pub fn put_report(out: &mut Vec<u8>, rows: &[ReportRow]) -> Result<(), NoMemory>
    requires few { length rows.now ≤ 255 }
    requires nodes { EachFits (λ r. IsNode r.node) rows.now }
    requires ascending { IsTrue (are_report_rows rows.now) }
    ensures ok { OnOk result (out.new.items ≡ out.old.items ++ report_text rows.now) }
    ensures err { OnErr result (out.new.items ≡ out.old.items) }
{
    put_list(out, rows)
}

#[tactic(auto, unfolding(crate::specs::Body::leader_text))]
fn put_leader_parts(out: &mut Vec<u8>, body: &Leader) -> Result<(), NoMemory>
    requires coord { IsNode body.now.group.view.coord }
    requires name { IsName body.now.group.name }
    requires leader { IsNodeOrNone body.now.leader }
    ensures ok { OnOk result (out.new.items ≡ out.old.items ++ leader_text body.now) }
    ensures err { OnErr result (take (length out.old.items) out.new.items ≡ out.old.items) }
{
    put_group(out, &body.group)?;
    put_u8(out, body.leader)
}

/// A NAME.
pub fn put_leader(out: &mut Vec<u8>, body: &Leader) -> Result<(), NoMemory>
    requires coord { IsNode body.now.group.view.coord }
    requires name { IsName body.now.group.name }
    requires leader { IsNodeOrNone body.now.leader }
    ensures ok { OnOk result (out.new.items ≡ out.old.items ++ leader_text body.now) }
    ensures err { OnErr result (out.new.items ≡ out.old.items) }
{
    let before = out.len();
    let done = put_leader_parts(out, body);
    settled(out, before, done)
}

#[tactic(auto, unfolding(crate::specs::Body::ack_text))]
fn put_ack_parts(out: &mut Vec<u8>, body: &Ack) -> Result<(), NoMemory>
    requires coord { IsNode body.now.group.view.coord }
    requires name { IsName body.now.group.name }
    ensures ok { OnOk result (out.new.items ≡ out.old.items ++ ack_text body.now) }
    ensures err { OnErr result (take (length out.old.items) out.new.items ≡ out.old.items) }
{
    put_group(out, &body.group)?;
    put_u32(out, body.len)
}

/// An ACK.
pub fn put_ack(out: &mut Vec<u8>, body: &Ack) -> Result<(), NoMemory>
    requires coord { IsNode body.now.group.view.coord }
    requires name { IsName body.now.group.name }
    ensures ok { OnOk result (out.new.items ≡ out.old.items ++ ack_text body.now) }
    ensures err { OnErr result (out.new.items ≡ out.old.items) }
{
    let before = out.len();
    let done = put_ack_parts(out, body);
    settled(out, before, done)
}

#[tactic(auto, unfolding(crate::specs::Body::gone_text))]
fn put_gone_parts(out: &mut Vec<u8>, body: &Gone) -> Result<(), NoMemory>
    requires coord { IsNode body.now.group.view.coord }
    requires name { IsName body.now.group.name }
    requires node { IsNode body.now.provider.node }
    ensures ok { OnOk result (out.new.items ≡ out.old.items ++ gone_text body.now) }
    ensures err { OnErr result (take (length out.old.items) out.new.items ≡ out.old.items) }
{
    put_group(out, &body.group)?;
    put_provider(out, body.provider)
}

/// A GONE.
pub fn put_gone(out: &mut Vec<u8>, body: &Gone) -> Result<(), NoMemory>
    requires coord { IsNode body.now.group.view.coord }
    requires name { IsName body.now.group.name }
    requires node { IsNode body.now.provider.node }
    ensures ok { OnOk result (out.new.items ≡ out.old.items ++ gone_text body.now) }
    ensures err { OnErr result (out.new.items ≡ out.old.items) }
{
    let before = out.len();
    let done = put_gone_parts(out, body);
    settled(out, before, done)
}

fn what_code(what: What) -> u8
    ensures { result ≡ what_code what }
{
    match what {
        What::Hats => 1,
        What::Hagsns => 2,
        What::Hagsgr => 3,
        What::Hagsvote => 4,
    }
}

#[tactic(auto, unfolding(crate::specs::Body::query_text))]
fn put_query_parts(out: &mut Vec<u8>, body: Query) -> Result<(), NoMemory>
    ensures ok { OnOk result (out.new.items ≡ out.old.items ++ query_text body) }
    ensures err { OnErr result (take (length out.old.items) out.new.items ≡ out.old.items) }
{
    put_u32(out, body.question)?;
    put_u8(out, what_code(body.what))
}

/// A QUERY.
pub fn put_query(out: &mut Vec<u8>, body: Query) -> Result<(), NoMemory>
    ensures ok { OnOk result (out.new.items ≡ out.old.items ++ query_text body) }
    ensures err { OnErr result (out.new.items ≡ out.old.items) }
{
    let before = out.len();
    let done = put_query_parts(out, body);
    settled(out, before, done)
}
