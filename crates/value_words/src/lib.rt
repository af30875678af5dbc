//! The words of lines, written and read: numbers, names, ids, values, and lists of them.
#![tactic(auto)]

mod faults;
mod hex;
mod ids;
mod lists;
mod names;
mod numbers;
mod values;
mod words;
mod writing;

pub use faults::WordFault;
pub use hex::hex_word;
pub use ids::{
    Four, four_parts, provider_word, put_proto, put_proto_word, put_provider, put_provider_word,
    put_ring_word, put_view, put_view_word,
};
pub use lists::{
    put_mask_word, put_members, put_members_word, put_nodes, put_providers, put_providers_word,
};
pub use names::{client_word, group_word, source_word};
pub use numbers::{
    network_word, node_word, number_word, put_count_word, put_counted, put_number, put_number_word,
    short_word,
};
pub use values::{put_escaped, put_value, text_word};
pub use words::{Words, cut_at, is_word, place_of};
pub use writing::{put_labelled, put_text, put_word};
