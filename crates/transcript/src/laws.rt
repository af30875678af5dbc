//! What kinds show, and what a transcript of them is.
ghost use Rattle.std.specs.Prelude.{◌≡◌, ℕ, List, [], Some};
ghost use Rattle.node_state.specs.declared.happened.Happened.{Happened};
ghost use Rattle.world_model.specs.Play.{is_shown, kinds_in, lines_text};
ghost use Rattle.transcript.specs.declared.kinds.Kinds.{Kinds};
ghost use Rattle.transcript.specs.Kinds.{shows, all_kinds, kinds_of, kinds_text};

/// All kinds show every record, so their text is the transcript of which no kinds are named.
#[tactic(auto, using(crate::proofs::KindLaws::all_show, crate::proofs::KindLaws::all_lines))]
pub fn all_kinds_show_all()
    ensures shown { (r : Happened) → shows all_kinds r ≡ is_shown [] r }
    ensures lines { (rs : List Happened) → kinds_text all_kinds rs ≡ lines_text [] rs }
{}

/// The kinds that a word names show just the records of the kinds in it, so their text is the transcript of
/// those.
#[tactic(auto, using(crate::proofs::KindLaws::named_show, crate::proofs::KindLaws::named_lines))]
pub fn kinds_show_what_they_name()
    ensures shown { (word : List ℕ) (k : Kinds) (r : Happened) → kinds_of word ≡ Some k
        → shows k r ≡ is_shown (kinds_in word) r }
    ensures lines { (word : List ℕ) (k : Kinds) (rs : List Happened) → kinds_of word ≡ Some k
        → kinds_text k rs ≡ lines_text (kinds_in word) rs }
{}
