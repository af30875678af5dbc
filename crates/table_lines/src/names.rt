//! The clients of a node in the order of their names.
ghost use Rattle.std.specs.Prelude.{◌≡◌, ◌≤◌, length, IfOk, OnOk};
ghost use Rattle.std.specs.List.{position};
ghost use Rattle.rsct_packet.specs.Search.{front_len};
ghost use Rattle.rsct_packet.specs.Text.{name_lt};
ghost use Rattle.table_lines.specs.Names.{with_name, names_of};

use rsct_packet::{List, NoMemory};
use session_state::Session;
use std::alloc::Global;
use view_state::is_less;

/// Where the first name stands that is greater.
fn first_greater(names: &[List<u8>], name: &[u8]) -> Option<usize>
    ensures { result ≡ position (name_lt name.now) names.now }
{
    names
        .iter()
        .position(|other| is_less(name, other.as_slice()))
}

/// How many names stand before a name.
#[tactic(auto, using(rsct_packet::proofs::SearchLaws::front_is_position, rsct_packet::proofs::SearchLaws::front_is_in))]
fn front(names: &[List<u8>], name: &[u8]) -> usize
    ensures value { result ≡ front_len (name_lt name.now) names.now }
    ensures within { result ≤ length names.now }
{
    first_greater(names, name).unwrap_or(names.len())
}

/// Puts a name before those that are greater.
#[tactic(auto, using(rsct_packet::proofs::SearchLaws::insert_at_front))]
fn put_name(alloc: Global, names: &mut Vec<List<u8>>, name: &[u8]) -> Result<(), NoMemory>
    ensures { OnOk result (names.new.items ≡ with_name names.old.items name.now) }
{
    let place = front(names.as_slice(), name);
    let name = List::of(alloc, name)?;
    names.insert(place, name)?;
    Ok(())
}

/// The names of the clients of these sessions, in the order of their bytes.
#[tactic(auto, unfolding(crate::specs::Names::names_of))]
pub fn client_names(alloc: Global, sessions: &[Session]) -> Result<Vec<List<u8>>, NoMemory>
    ensures { IfOk result (λ names. names.items ≡ names_of sessions.now) }
{
    let mut names = Vec::new(alloc);
    for session in sessions {
        put_name(alloc, &mut names, session.name.as_slice())?;
    }
    Ok(names)
}
