//! What becomes of the requests of providers.
#![tactic(auto)]

pub mod samples;

ghost use Rattle.request_laws.specs.Requests.{RequestsOfScenesAreKept};
ghost use Rattle.request_laws.specs.Runs.{EveryRequestIsKept};

/// At each moment of each run of events that may happen, whatever its clients answer, no request of a provider that lives is lost: at
/// the provider's node, where it is up, the request is outstanding just as it was asked, or the node put an entry that carries it, or
/// the provider was told of it.
pub fn every_request_is_kept()
    ensures { EveryRequestIsKept }
{}

/// So it is in every scene whose history names calls, and calls alone, as calls.
pub fn requests_of_scenes_are_kept()
    ensures { RequestsOfScenesAreKept }
{}
