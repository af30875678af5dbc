//! Why requests and calls are refused.
ghost use Rattle.std.specs.Prelude.{◌≡◌, ◌++◌, OnOk};
ghost use Rattle.entry_words.specs.Wording.{why_text, field_text, attr_fault_text, fault_text};

use client_callbacks::Why;
use group_attr::AttrFault;
use rsct_packet::NoMemory;
use session_state::{Field, GsFault};
use value_words::{put_counted, put_labelled, put_number, put_proto, put_text};

#[tactic(auto, unfolding(crate::specs::Wording::why_text))]
pub fn put_why(out: &mut Vec<u8>, why: Why) -> Result<(), NoMemory>
    ensures { OnOk result (out.new.items ≡ out.old.items ++ why_text why) }
{
    match why {
        Why::Collide(proto) => {
            put_text(out, b"COLLIDE ")?;
            put_proto(out, proto)
        }
        Why::DuplicateInstance => put_text(out, b"DUPLICATE_INSTANCE_NUMBER"),
        Why::NoSource(len) => put_counted(out, b"NO_SOURCE_GROUP_PROVIDER ", len),
        Why::BadAttributes => put_text(out, b"BAD_GROUP_ATTRIBUTES"),
        Why::NotAMember => put_text(out, b"NOT_A_MEMBER"),
        Why::ListFull(places, bytes) => {
            put_text(out, b"LIST_FULL ")?;
            put_number(out, places)?;
            put_text(out, b"/")?;
            put_number(out, bytes)
        }
        Why::GroupFull(n) => put_counted(out, b"GROUP_FULL ", n),
        Why::GroupsFull(n) => put_counted(out, b"GROUPS_FULL ", n),
        Why::Dissolved => put_text(out, b"DISSOLVED"),
    }
}

#[tactic(auto, unfolding(crate::specs::Wording::field_text))]
fn field_text(field: Field) -> &'static [u8]
    ensures { result.now ≡ field_text field }
{
    match field {
        Field::Name => b"name",
        Field::Value => b"value",
        Field::Message => b"message",
        Field::Targets => b"targets",
        Field::Subscription => b"subscription",
    }
}

#[tactic(auto, unfolding(crate::specs::Wording::attr_fault_text))]
fn attr_fault_text(fault: AttrFault) -> &'static [u8]
    ensures { result.now ≡ attr_fault_text fault }
{
    match fault {
        AttrFault::Limit(_) => b"limit",
        AttrFault::SourceLimit(_) => b"slimit",
        AttrFault::Source => b"source",
    }
}

#[tactic(auto, unfolding(crate::specs::Wording::fault_text))]
pub fn put_fault(out: &mut Vec<u8>, fault: GsFault) -> Result<(), NoMemory>
    ensures { OnOk result (out.new.items ≡ out.old.items ++ fault_text fault) }
{
    match fault {
        GsFault::NoInit => put_text(out, b"NO_INIT"),
        GsFault::Exists => put_text(out, b"EXISTS"),
        GsFault::NameTooLong => put_text(out, b"NAME_TOO_LONG"),
        GsFault::BadParameter(field) => put_labelled(out, b"BAD_PARAMETER ", field_text(field)),
        GsFault::BadClientToken => put_text(out, b"BAD_CLIENT_TOKEN"),
        GsFault::BadMemberToken => put_text(out, b"BAD_MEMBER_TOKEN"),
        GsFault::UnknownGroup => put_text(out, b"UNKNOWN_GROUP"),
        GsFault::BadGroupAttributes(fault) => {
            put_labelled(out, b"BAD_GROUP_ATTRIBUTES ", attr_fault_text(fault))
        }
        GsFault::VoteNotExpected => put_text(out, b"VOTE_NOT_EXPECTED"),
        GsFault::Collide(r) => put_counted(out, b"COLLIDE ", r),
        GsFault::SessionsFull(n) => put_counted(out, b"SESSIONS_FULL ", n),
        GsFault::Spent => put_text(out, b"SPENT"),
        GsFault::NoMemory => put_text(out, b"NO_MEMORY"),
    }
}
