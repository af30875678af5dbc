//! Laws of what clients ask for.
ghost use Rattle.asking_laws.specs.Requests.{RequestsOfScenesAreSpelled};
ghost use Rattle.asking_laws.specs.Runs.{EveryRequestIsALine, EveryRequestIsSpelled};

/// Whatever starts, stops and steps, where each call is noted as such: each request that is recorded, and each that is
/// outstanding at a node, has a spelling, where the words of each call have one and who starts is a node from 1 to 32, in an
/// incarnation of 32 bits.
pub fn requests_of_scenes_are_spelled()
    ensures { RequestsOfScenesAreSpelled }
{}

/// So each request that is recorded in a run of events that may happen, whatever the clients answer.
pub fn every_request_is_spelled()
    ensures { EveryRequestIsSpelled }
{}

/// So the record of each is a line: it shows something that fits, and is read again.
pub fn every_request_is_a_line()
    ensures { EveryRequestIsALine }
{}
