//! What the grammar of words takes, said by how one writes them.
ghost use Rattle.std.specs.Prelude.{◌≡◌, List, [], Some};
ghost use Rattle.hags_words.specs.Options.{given_of};
ghost use Rattle.hags_words.specs.Spelled.{Use, words_of, values_of, AreUses};

/// An operand and options, each at most once, in any order, and each option as `--name VALUE` or `--name=VALUE`: their
/// words give just their values. A value that is a word of its own does not begin with a hyphen.
#[tactic(auto, using(crate::proofs::SpelledLaws::spelled_is_given))]
pub fn words_give_what_they_say()
    ensures { (uses : List Use) → AreUses [] uses
        → given_of (words_of uses) ≡ Some (values_of uses) }
{}
