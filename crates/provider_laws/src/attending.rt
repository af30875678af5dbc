//! Where providers hear, in every run: each place once.

ghost use Rattle.provider_laws.specs.attending.Places.{EachPlaceIsHeardOnce, EntriesNameOnce, MembersStandOnce};
ghost use Rattle.provider_laws.specs.attending.Order.{HeardInOrder};

/// Whatever starts, stops and steps, in any order: an entry that a node puts names no joiner twice.
#[tactic(auto, using(crate::proofs::attending::States::entries_named))]
pub fn entries_name_once()
    ensures { EntriesNameOnce }
{}

/// So nobody stands twice among the members and the running joiners of a group, at any node.
pub fn members_stand_once()
    ensures { MembersStandOnce }
{}

/// So a provider hears each place of a list of a view once: what it hears first is place 0 or its join, and then just the place
/// after the last that it heard of it; and its node is in that view, in the provider's incarnation.
#[tactic(auto, using(crate::proofs::attending::Law::places_once))]
pub fn each_place_is_heard_once()
    ensures { EachPlaceIsHeardOnce }
{}

/// So the places that a provider hears of a list of a view are, by the records alone, its first place, the next, and so on, and it
/// takes part at each: from its first place, which is 0 where it passes into the view and else that of its join, up to its last.
#[tactic(auto, using(crate::proofs::attending::OrderLaw::heard_in_order))]
pub fn heard_in_order()
    ensures { HeardInOrder }
{}
