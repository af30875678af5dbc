//! Who leaves hears nothing more, in every run.

ghost use Rattle.provider_laws.specs.leaving.LetGo.{WhoIsLetGoHearsNothing, ProvidersWereNotLetGo};

/// Whoever was let go by an earlier event, as its client said goodbye, as it was told DISSOLVED or as its node stopped, hears
/// nothing: in every scene whose history names calls, and calls alone, as calls.
#[tactic(auto, using(crate::proofs::leaving::Law::who_is_let_go))]
pub fn who_is_let_go_hears_nothing()
    ensures { WhoIsLetGoHearsNothing }
{}

/// Since whoever is a provider of a node that is up was not let go.
#[tactic(auto, using(crate::proofs::leaving::Law::providers_stay))]
pub fn providers_were_not_let_go()
    ensures { ProvidersWereNotLetGo }
{}
