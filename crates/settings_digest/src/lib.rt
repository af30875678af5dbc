//! The digest of settings, by which one sees whether two daemons have the same.
#![tactic(auto)]

mod digest;
mod examples;

pub use digest::settings_digest;
pub use examples::normal_settings_are;

#[cfg(test)]
mod tests;
