//! Laws of the fold.
ghost use Rattle.fold_laws.specs.Changes.{EntriesChangeAsSaid};
ghost use Rattle.fold_laws.specs.Room.{ListsHaveRoom};
ghost use Rattle.fold_laws.specs.Voters.{VotersAreWhoStay};

/// Who votes while a protocol runs: the members whom it does not take off, and those who join by it.
pub fn voters_are_who_stays()
    ensures { VotersAreWhoStay }
{}

/// What each kind of entry changes of a group's state, member by member and value by value; and that an entry which does not
/// fit changes nothing.
pub fn entries_change_as_said()
    ensures { EntriesChangeAsSaid }
{}

/// A list of a group has room for each entry that a leader puts there: where what begins does so below the limits of 4,096
/// places and 262,144 bytes, where of a phase it is said once who is late, and where each entry has a spelling, a list has at
/// most 4,496 places and 54,057,496 bytes. Places and bytes are counted in 32 bits.
pub fn lists_have_room()
    ensures { ListsHaveRoom }
{}
