//! That both messages are read as they are written.
ghost use Rattle.std.specs.Prelude.{◌≡◌, ℕ, List, Some};
ghost use Rattle.rsct_packet.specs.Format.{IsFormat};
ghost use Rattle.self_questions.specs.declared.messages.SelfQuestion.{SelfQuestion};
ghost use Rattle.self_questions.specs.Messages.{IsQuestion, question_text, question_at, question_of, reply_head, reply_text, reply_at, text_in};

/// Each question, and each reply before its text, has one spelling: what is read is spelled so, and what is spelled so is
/// read.
#[tactic(auto, using(crate::proofs::MessageLaws::question_format, crate::proofs::MessageLaws::reply_format))]
pub fn questions_have_one_spelling()
    ensures question { IsFormat question_at question_text IsQuestion }
    ensures reply { IsFormat reply_at reply_head IsQuestion }
{}

/// A question that was written is read as itself, and a reply to it gives its text.
#[tactic(auto, using(crate::proofs::MessageLaws::question_again, crate::proofs::MessageLaws::text_again))]
pub fn read_as_written()
    ensures question { (q : SelfQuestion) → IsQuestion q
        → question_of (question_text q) ≡ Some q }
    ensures reply { (q : SelfQuestion) (text : List ℕ) → IsQuestion q
        → text_in q (reply_text q text) ≡ Some text }
{}
