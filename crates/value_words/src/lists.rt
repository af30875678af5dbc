//! Lists: items between commas, `-` for none.
ghost use Rattle.std.specs.Prelude.{◌≡◌, ◌++◌, ◌<◌, [], OnOk, codes, flat_map, decimal};
ghost use Rattle.rsct_packet.specs.Mask.{nodes_of};
ghost use Rattle.value_words.specs.Wording.{word, provider_text, member_text, joined, nodes_text, members_text, providers_text};

use crate::ids::{put_member, put_provider};
use crate::numbers::put_number;
use crate::writing::put_text;
use rsct_packet::{Mask, Member, NoMemory, ProviderId};
use std::alloc::Global;

/// Nodes, each behind a comma.
fn put_more_nodes(out: &mut Vec<u8>, nodes: &[u8]) -> Result<(), NoMemory>
    ensures { OnOk result (out.new.items ≡ out.old.items
        ++ flat_map (λ y. codes "," ++ decimal y) nodes.now) }
{
    for n in nodes {
        put_text(out, b",")?;
        put_number(out, u32::from(*n))?;
    }
    Ok(())
}

/// Nodes between commas, `-` for none. Err: no memory; some of it is then written.
#[tactic(auto, unfolding(crate::specs::Wording::nodes_text, crate::specs::Wording::joined))]
pub fn put_nodes(out: &mut Vec<u8>, nodes: &[u8]) -> Result<(), NoMemory>
    ensures { OnOk result (out.new.items ≡ out.old.items ++ nodes_text nodes.now) }
{
    match nodes {
        [] => put_text(out, b"-"),
        [first, others @ ..] => {
            put_number(out, u32::from(*first))?;
            put_more_nodes(out, others)
        }
    }
}

/// The nodes of a set, ascending, and a space.
#[tactic(auto, unfolding(crate::specs::Wording::word))]
pub fn put_mask_word(alloc: Global, out: &mut Vec<u8>, nodes: Mask) -> Result<(), NoMemory>
    ensures { OnOk result (out.new.items ≡ out.old.items ++ word (nodes_text (nodes_of nodes))) }
{
    let nodes = nodes.nodes(alloc)?;
    put_nodes(out, nodes.as_slice())?;
    put_text(out, b" ")
}

/// Members of a view, each behind a comma.
fn put_more_members(out: &mut Vec<u8>, members: &[Member]) -> Result<(), NoMemory>
    ensures { OnOk result (out.new.items ≡ out.old.items
        ++ flat_map (λ y. codes "," ++ member_text y) members.now) }
{
    for m in members {
        put_text(out, b",")?;
        put_member(out, *m)?;
    }
    Ok(())
}

/// Members of a view between commas, `-` for none.
#[tactic(auto, unfolding(crate::specs::Wording::members_text, crate::specs::Wording::joined))]
pub fn put_members(out: &mut Vec<u8>, members: &[Member]) -> Result<(), NoMemory>
    ensures { OnOk result (out.new.items ≡ out.old.items ++ members_text members.now) }
{
    match members {
        [] => put_text(out, b"-"),
        [first, others @ ..] => {
            put_member(out, *first)?;
            put_more_members(out, others)
        }
    }
}

#[tactic(auto, unfolding(crate::specs::Wording::word))]
pub fn put_members_word(out: &mut Vec<u8>, members: &[Member]) -> Result<(), NoMemory>
    ensures { OnOk result (out.new.items ≡ out.old.items ++ word (members_text members.now)) }
{
    put_members(out, members)?;
    put_text(out, b" ")
}

/// Providers, each behind a comma.
fn put_more_providers(out: &mut Vec<u8>, providers: &[ProviderId]) -> Result<(), NoMemory>
    ensures { OnOk result (out.new.items ≡ out.old.items
        ++ flat_map (λ y. codes "," ++ provider_text y) providers.now) }
{
    for p in providers {
        put_text(out, b",")?;
        put_provider(out, *p)?;
    }
    Ok(())
}

/// Providers between commas, `-` for none.
#[tactic(auto, unfolding(crate::specs::Wording::providers_text, crate::specs::Wording::joined))]
pub fn put_providers(out: &mut Vec<u8>, providers: &[ProviderId]) -> Result<(), NoMemory>
    ensures { OnOk result (out.new.items ≡ out.old.items ++ providers_text providers.now) }
{
    match providers {
        [] => put_text(out, b"-"),
        [first, others @ ..] => {
            put_provider(out, *first)?;
            put_more_providers(out, others)
        }
    }
}

#[tactic(auto, unfolding(crate::specs::Wording::word))]
pub fn put_providers_word(out: &mut Vec<u8>, providers: &[ProviderId]) -> Result<(), NoMemory>
    ensures { OnOk result (out.new.items ≡ out.old.items ++ word (providers_text providers.now)) }
{
    put_providers(out, providers)?;
    put_text(out, b" ")
}
