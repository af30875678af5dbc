//! Worked examples of the messages. Each function is a law: what the definitions compute.
ghost use Rattle.std.specs.Prelude.{◌≡◌, ◌∷◌, [], ◌++◌, Some, None, codes};
ghost use Rattle.self_questions.specs.declared.messages.SelfWhat.TheVariants.{Hagscl, Hagsd};
ghost use Rattle.self_questions.specs.Messages.{question_text, question_of, reply_text, text_in};

/// Question 7 about the clients, and about what is counted.
#[tactic(auto, unfolding(crate::specs::Messages::self_messages_opens, rsct_packet::specs::Fields::u32_text))]
pub fn question_bytes()
    ensures clients { question_text (record { what = Hagscl; question = 7 })
        ≡ 82 ∷ 73 ∷ 1 ∷ 1 ∷ 0 ∷ 0 ∷ 0 ∷ 7 ∷ [] }
    ensures daemon { question_of (82 ∷ 73 ∷ 1 ∷ 2 ∷ 0 ∷ 0 ∷ 1 ∷ 0 ∷ [])
        ≡ Some (record { what = Hagsd; question = 256 }) }
{}

/// A byte more or fewer, a reply, and another thing that is asked are no question.
#[tactic(auto, unfolding(crate::specs::Messages::self_messages_opens))]
pub fn no_other_question()
    ensures more { question_of (82 ∷ 73 ∷ 1 ∷ 2 ∷ 0 ∷ 0 ∷ 1 ∷ 0 ∷ 0 ∷ [])
        ≡ None }
    ensures fewer { question_of (82 ∷ 73 ∷ 1 ∷ 2 ∷ 0 ∷ 0 ∷ 1 ∷ []) ≡ None }
    ensures reply { question_of (82 ∷ 73 ∷ 2 ∷ 2 ∷ 0 ∷ 0 ∷ 1 ∷ 0 ∷ []) ≡ None }
    ensures other { question_of (82 ∷ 73 ∷ 1 ∷ 3 ∷ 0 ∷ 0 ∷ 1 ∷ 0 ∷ []) ≡ None }
{}

/// The reply to it, whose text is `a` and a line feed.
#[tactic(auto, unfolding(crate::specs::Messages::self_messages_opens, rsct_packet::specs::Fields::u32_text))]
pub fn reply_bytes()
    ensures { reply_text (record { what = Hagsd; question = 7 }) (codes "a\n")
        ≡ 82 ∷ 73 ∷ 2 ∷ 2 ∷ 0 ∷ 0 ∷ 0 ∷ 7 ∷ 97 ∷ 10 ∷ [] }
{}

/// A reply is the answer to the question of its number about the same, and to no other.
#[tactic(auto, unfolding(crate::specs::Messages::self_messages_opens))]
pub fn reply_to_another()
    ensures own { text_in (record { what = Hagsd; question = 7 })
        (82 ∷ 73 ∷ 2 ∷ 2 ∷ 0 ∷ 0 ∷ 0 ∷ 7 ∷ 97 ∷ 10 ∷ [])
        ≡ Some (codes "a\n") }
    ensures number { text_in (record { what = Hagsd; question = 8 })
        (82 ∷ 73 ∷ 2 ∷ 2 ∷ 0 ∷ 0 ∷ 0 ∷ 7 ∷ 97 ∷ 10 ∷ []) ≡ None }
    ensures what { text_in (record { what = Hagscl; question = 7 })
        (82 ∷ 73 ∷ 2 ∷ 2 ∷ 0 ∷ 0 ∷ 0 ∷ 7 ∷ 97 ∷ 10 ∷ []) ≡ None }
{}
