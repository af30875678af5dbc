//! Questions that a daemon is asked about itself: the messages both ways.
#![tactic(auto)]

mod examples;
mod laws;
mod messages;
#[cfg(test)]
mod tests;

pub use examples::{no_other_question, question_bytes, reply_bytes, reply_to_another};
pub use laws::{questions_have_one_spelling, read_as_written};
pub use messages::{
    SelfQuestion, SelfWhat, put_question, put_reply_head, read_question, read_reply, text_in,
};
