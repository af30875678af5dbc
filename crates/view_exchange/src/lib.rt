//! What nodes tell each other of their lists at a view change, as it stands in datagrams: answers, which are added to a
//! gathering in place, and installs.
#![tactic(auto)]

mod answer;
mod exchange;
mod in_place;
mod install_codec;
mod laws;
mod sides;
mod sources_in_place;
mod writing;

pub use answer::{AnswerRef, put_answer};
pub use exchange::add_answer;
pub use in_place::{EntriesRef, PartRef, PartsRef};
pub use install_codec::{InstallRef, put_install, read_install};
pub use laws::{first_answers_count, longest_lists_are_carried};
