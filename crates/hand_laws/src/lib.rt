//! Who is handed what a provider hears: the client whose log has all that it heard before.
#![tactic(auto)]

mod laws;

pub use laws::logs_have_all;
