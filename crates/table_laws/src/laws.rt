//! Laws of the map of a group in every run.
ghost use Rattle.table_laws.specs.Agreeing.{TablesAgree, WholeCopiesAreEqual};
ghost use Rattle.table_laws.specs.Carrying.{ThePresentAsked, ChunksAreCarried};
ghost use Rattle.table_laws.specs.Firsts.{FirstJoinersAreWhole};
ghost use Rattle.table_laws.specs.Maps.{MapsAreOne, MapsStayWhileRunning, MapsAreEmptyWithoutMembers, MapsExist, ListsSayMaps};
ghost use Rattle.table_laws.specs.Notices.{NoticesAreOfLists};
ghost use Rattle.table_laws.specs.Voting.{BallotsSendChunks};

/// In every run whose events may happen, whatever its clients answer, the map of a group in a view after so many entries of
/// its list is one.
#[tactic(auto, using(crate::proofs::RunMaps::maps_are_one))]
pub fn maps_are_one()
    ensures { MapsAreOne }
{}

/// While a protocol runs, in whatever view, the map is the one directly behind its Begin.
#[tactic(auto, using(crate::proofs::RunMaps::maps_stay_while_running))]
pub fn maps_stay_while_running()
    ensures { MapsStayWhileRunning }
{}

/// A group without members has the empty map.
#[tactic(auto, using(crate::proofs::RunMaps::maps_are_empty_without_members))]
pub fn maps_are_empty_without_members()
    ensures { MapsAreEmptyWithoutMembers }
{}

/// There is a map at each place up to which a node has put entries.
pub fn maps_exist()
    ensures { MapsExist }
{}

/// The longest list of each view and the base that is noted there are the lists of a group, as `copies_follow` of
/// `table_client` wants them, and the maps of their places are those by the records.
pub fn lists_say_maps()
    ensures { ListsSayMaps }
{}

/// Whatever a provider hears in a run, with the fold of its node's list as the state that comes with it, is the entry of
/// the group's list at that place and the state of the list behind it; and the place has a map.
pub fn notices_are_of_lists()
    ensures { NoticesAreOfLists }
{}

/// Before an entry that a node puts, whoever is present in its group's state asked in that group for its join.
pub fn the_present_asked()
    ensures { ThePresentAsked }
{}

/// Where each message that was cast before it is the chunk of its phase of the map directly behind its protocol's Begin, an
/// entry that closes a phase carries that chunk of its group's map, or nothing.
pub fn chunks_are_carried()
    ensures { ChunksAreCarried }
{}

/// A message that goes with a ballot by the rules, of a copy whose whole map is that of the place of its notice, is the chunk
/// of the phase that runs behind it, of the map directly behind the protocol's Begin.
pub fn ballots_send_chunks()
    ensures { BallotsSendChunks }
{}

/// In every run whose events may happen and whose clients are all table clients, a copy that is whole has the map of its group's list,
/// at its view and length; so has each copy that a log tells at some moment of the run, of clients that are gone later, too.
pub fn tables_agree()
    ensures { TablesAgree }
{}

/// So two whole copies of one group with the same view and length have equal maps, of whichever clients of whichever nodes, at
/// whichever moments of the run.
pub fn whole_copies_are_equal()
    ensures { WholeCopiesAreEqual }
{}

/// A provider whose join found nobody in its group has a whole copy from then on, until it is told that it is dissolved: where the
/// state behind the entry with which the join begins has no members but who joins by that entry.
pub fn first_joiners_are_whole()
    ensures { FirstJoinersAreWhole }
{}
