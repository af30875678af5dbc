//! What the rules make of a map.
ghost use Rattle.table_client.specs.Maps.{Lists, AreSafe, MapsHold};
ghost use Rattle.table_client.specs.Sharing.{RulesKeepTheMap};
ghost use Rattle.table_client.specs.Apart.{CopiesAreApart, CopiesAreDistinct};
ghost use Rattle.table_client.specs.Following.{CopiesFollow};

/// Of the lists and bases of one group, where entries fit and a base keeps the members and what runs: the map at a place is
/// one, it is empty where the group has no members, and it stays while a protocol runs, in whatever view.
#[tactic(auto, using(crate::proofs::MapLaws::maps_hold))]
pub fn maps_hold()
    ensures { (lists : Lists) → AreSafe lists → MapsHold lists }
{}

/// A voter sends a chunk of its map, what is kept of entries with chunks of a map are chunks of it, what is received of one
/// map is that map, and a whole map goes on by the entries of the list.
#[tactic(auto, using(crate::proofs::SharingLaws::rules_keep_the_map))]
pub fn rules_keep_the_map()
    ensures { RulesKeepTheMap }
{}

/// The copy of a provider is what the rules make of what was handed for it, whatever was handed for others.
#[tactic(auto, using(crate::proofs::ApartLaws::copies_are_apart))]
pub fn copies_are_apart()
    ensures { CopiesAreApart }
{}

/// No two copies of a client are of one provider.
#[tactic(auto, using(crate::proofs::ApartLaws::copies_are_distinct))]
pub fn copies_are_distinct()
    ensures { CopiesAreDistinct }
{}

/// A copy whose provider hears the lists of its group, one entry after another from its own join on and from view to view,
/// is what it should be at each place: a whole map is that of the place, the protocol is the one that runs there, and the
/// chunks are those of the map with which its join began. The entries that close the phases of that join have to carry these
/// chunks, or nothing.
pub fn copies_follow()
    ensures { CopiesFollow }
{}
