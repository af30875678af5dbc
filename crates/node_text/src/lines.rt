//! The line of a ring, of the view, of a group, and of a protocol that runs.
ghost use Rattle.std.specs.Prelude.{◌≡◌, ◌++◌, IfOk, OnOk, Some};
ghost use Rattle.value_words.specs.Wording.{word};
ghost use Rattle.node_state.specs.Status.{ring_line, yes_or_no, view_line, leader_text, list_line, group_line, waiting_text, vote_line};

use adapter_ring::Ring;
use entry_words::kind_of;
use node_groups::{leader_in, leads_in};
use node_sending::is_frozen;
use node_state::{Core, GroupRow};
use proposal_core::{GroupList, Running};
use rsct_packet::{List, Name, NoMemory};
use std::alloc::Global;
use value_words::{
    put_escaped, put_mask_word, put_members_word, put_number, put_number_word, put_proto_word,
    put_providers, put_providers_word, put_ring_word, put_text, put_view_word, put_word,
};
use vote_phases::Tally;

/// The line of a ring.
#[tactic(auto, unfolding(node_state::specs::Status::ring_line))]
pub fn ring_line(alloc: Global, ring: &Ring) -> Result<List<u8>, NoMemory>
    ensures { IfOk result (λ l. l ≡ ring_line ring.now) }
{
    let mut out = Vec::new(alloc);
    put_text(&mut out, b"hats ")?;
    put_number_word(&mut out, u32::from(ring.net))?;
    put_ring_word(&mut out, ring.id)?;
    put_text(&mut out, b"members=")?;
    put_mask_word(alloc, &mut out, ring.members)?;
    put_text(&mut out, b"neighbour=")?;
    put_number(&mut out, u32::from(ring.neighbour()))?;
    List::of(alloc, out.as_slice())
}

#[tactic(auto, unfolding(node_state::specs::Status::yes_or_no))]
fn yes_or_no(answer: bool) -> &'static [u8]
    ensures { result.now ≡ yes_or_no answer }
{
    if answer { b"yes" } else { b"no" }
}

/// The line of the node's view.
#[tactic(auto, unfolding(node_state::specs::Status::view_line))]
pub fn view_line(core: &Core, alloc: Global) -> Result<List<u8>, NoMemory>
    ensures { IfOk result (λ l. l ≡ view_line core.now) }
{
    let mut out = Vec::new(alloc);
    put_text(&mut out, b"hagsns ")?;
    put_view_word(&mut out, core.views.view)?;
    put_text(&mut out, b"coord=")?;
    put_number_word(&mut out, u32::from(core.views.view.coord))?;
    put_text(&mut out, b"members=")?;
    put_members_word(&mut out, core.views.members.as_slice())?;
    put_text(&mut out, b"frozen=")?;
    put_text(&mut out, yes_or_no(is_frozen(core)))?;
    List::of(alloc, out.as_slice())
}

/// The leader, `?` where it is unknown, and a space.
#[tactic(auto, unfolding(node_state::specs::Status::leader_text, value_words::specs::Wording::word))]
fn put_leader_word(out: &mut Vec<u8>, leader: Option<u8>) -> Result<(), NoMemory>
    ensures { OnOk result (out.new.items ≡ out.old.items ++ word (leader_text leader)) }
{
    match leader {
        None => put_word(out, b"?"),
        Some(node) => put_number_word(out, u32::from(node)),
    }
}

#[tactic(auto, unfolding(node_state::specs::Status::list_line))]
fn list_line(
    alloc: Global,
    group: &Name,
    leader: Option<u8>,
    list: &GroupList,
) -> Result<List<u8>, NoMemory>
    ensures { IfOk result (λ l. l ≡ list_line group.now leader list.now) }
{
    let state = list.state();
    let mut out = Vec::new(alloc);
    put_text(&mut out, b"hagsgr ")?;
    put_word(&mut out, group.bytes())?;
    put_text(&mut out, b"leader=")?;
    put_leader_word(&mut out, leader)?;
    put_text(&mut out, b"len=")?;
    put_number_word(&mut out, list.len())?;
    put_text(&mut out, b"members=")?;
    put_providers_word(&mut out, state.members.as_slice())?;
    put_text(&mut out, b"value=")?;
    put_escaped(&mut out, state.value.bytes())?;
    List::of(alloc, out.as_slice())
}

/// The line of a group, whose list the node holds.
#[tactic(auto, unfolding(node_state::specs::Status::group_line))]
pub fn group_line(
    core: &Core,
    alloc: Global,
    row: &GroupRow,
    list: &GroupList,
) -> Result<List<u8>, NoMemory>
    requires { row.now.list ≡ Some list.now }
    ensures { IfOk result (λ l. l ≡ group_line core.now row.now) }
{
    list_line(alloc, &row.name, leader_in(core, row), list)
}

/// The voters whose vote the phase waits for, `?` where another node leads.
#[tactic(auto, unfolding(node_state::specs::Status::waiting_text))]
fn put_waiting(
    alloc: Global,
    out: &mut Vec<u8>,
    leads: bool,
    tally: &Option<Tally>,
) -> Result<(), NoMemory>
    ensures { OnOk result (out.new.items ≡ out.old.items ++ waiting_text leads tally.now) }
{
    if !leads {
        return put_text(out, b"?");
    }
    match tally {
        None => put_providers(out, &[]),
        Some(tally) => {
            let open = tally.open_voters(alloc)?;
            put_providers(out, open.as_slice())
        }
    }
}

/// The line of a group's protocol that runs.
#[tactic(auto, unfolding(node_state::specs::Status::vote_line))]
pub fn vote_line(
    core: &Core,
    alloc: Global,
    row: &GroupRow,
    run: &Running,
) -> Result<List<u8>, NoMemory>
    ensures { IfOk result (λ l. l ≡ vote_line core.now row.now run.now) }
{
    let mut out = Vec::new(alloc);
    put_text(&mut out, b"hagsvote ")?;
    put_word(&mut out, row.name.bytes())?;
    put_proto_word(&mut out, run.proto)?;
    put_text(&mut out, b"phase=")?;
    put_number_word(&mut out, u32::from(run.phase))?;
    put_text(&mut out, b"kind=")?;
    put_word(&mut out, kind_of(&run.proposal))?;
    put_text(&mut out, b"waiting=")?;
    put_waiting(alloc, &mut out, leads_in(core, row), &row.led.tally)?;
    List::of(alloc, out.as_slice())
}
