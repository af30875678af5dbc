//! A group in a view, as packets name it.
ghost use Rattle.std.specs.Prelude.{◌≡◌, ◌++◌, OnOk, OnErr};
ghost use Rattle.rsct_packet.specs.Text.{IsName};
ghost use Rattle.rsct_packet.specs.Fields.{IsNode};
ghost use Rattle.rsct_packet.specs.Reading.{Gives};
ghost use Rattle.rsct_packet.specs.Format.{IsFoundAt, IsOnlyAt};
ghost use Rattle.packet_bodies.specs.Group.{IsGroup, group_at, group_text};

use rsct_packet::{NoMemory, ViewId, known, put_name, put_view, read_name, read_view};
use std::marker::Model;

/// A group in a view. The name is a part of the datagram.
#[derive(Drop)]
pub struct GroupRef<'a> {
    view: ViewId,
    name: &'a [u8],
}

impl<'a> Model for GroupRef<'a> {
    ghost use Rattle.packet_bodies.specs.Group.{GroupIn};

    ghost Value = { GroupIn };

    ghost view = { λ g. record { view = g.view; name = g.name.now } };
}

impl<'a> GroupRef<'a> {
    pub fn new(view: ViewId, name: &'a [u8]) -> GroupRef<'a>
        ensures { result ≡ record { view = view; name = name.now } }
    {
        GroupRef { view, name }
    }

    pub fn view(&self) -> ViewId
        ensures { result ≡ self.now.view }
    {
        self.view
    }

    pub fn name(&self) -> &'a [u8]
        ensures { result.now ≡ self.now.name }
    {
        self.name
    }
}

#[tactic(auto, unfolding(crate::specs::Group::group_at))]
fn read_group_parts(bytes: &[u8]) -> Option<(GroupRef, &[u8])>
    ensures { Gives result (group_at bytes.now) }
{
    let (view, bytes) = read_view(bytes)?;
    let (name, bytes) = read_name(bytes)?;
    Some((GroupRef::new(view, name), bytes))
}

/// A view and a name.
#[tactic(auto, using(rsct_packet::proofs::FormatLaws::format_reads, crate::proofs::BodyLaws::group_format))]
pub fn read_group(bytes: &[u8]) -> Option<(GroupRef, &[u8])>
    ensures value { Gives result (group_at bytes.now) }
    ensures found { IsFoundAt group_text IsGroup result bytes.now }
    ensures only { IsOnlyAt group_text IsGroup result bytes.now }
{
    read_group_parts(known(bytes))
}

/// A view and a name.
#[tactic(auto, unfolding(crate::specs::Group::group_text))]
pub fn put_group(out: &mut Vec<u8>, group: &GroupRef) -> Result<(), NoMemory>
    requires coord { IsNode group.now.view.coord }
    requires name { IsName group.now.name }
    ensures ok { OnOk result (out.new.items ≡ out.old.items ++ group_text group.now) }
    ensures err { OnErr result (out.new.items ≡ out.old.items) }
{
    let before = out.len();
    put_view(out, group.view)?;
    if let Err(e) = put_name(out, group.name) {
        out.truncate(before);
        return Err(e);
    }
    Ok(())
}
