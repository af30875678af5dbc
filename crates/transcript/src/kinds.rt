//! Which kinds of records are shown.
ghost use Rattle.std.specs.Prelude.{◌≡◌};
ghost use Rattle.world_model.specs.Play.{kind_of};
ghost use Rattle.transcript.specs.Kinds.{word_of, kind_word, bit_of, shows, all_kinds, no_kinds, has_kind, with_kind, kind_step, kinds_of};

use node_state::Happened;
use value_words::{cut_at, is_word};

/// A kind of records. A new one is a line here, one in `ALL`, one in `word` and one in `of`.
#[derive(Clone, Copy, Debug, PartialEq, Eq)]
pub enum Kind {
    Up,
    Down,
    Ring,
    In,
    Base,
    Put,
    Heard,
    Cast,
    Asked,
    Told,
    Noted,
    Refused,
    Show,
}

impl Kind {
    /// Every kind, in the order of their numbers.
    const ALL: [Kind; 13] = [
        Kind::Up,
        Kind::Down,
        Kind::Ring,
        Kind::In,
        Kind::Base,
        Kind::Put,
        Kind::Heard,
        Kind::Cast,
        Kind::Asked,
        Kind::Told,
        Kind::Noted,
        Kind::Refused,
        Kind::Show,
    ];

    /// The word with which the lines of its records begin.
    fn word(self) -> &'static [u8]
        ensures { result.now ≡ word_of self }
    {
        match self {
            Kind::Up => b"up",
            Kind::Down => b"down",
            Kind::Ring => b"ring",
            Kind::In => b"in",
            Kind::Base => b"base",
            Kind::Put => b"put",
            Kind::Heard => b"heard",
            Kind::Cast => b"cast",
            Kind::Asked => b"asked",
            Kind::Told => b"told",
            Kind::Noted => b"noted",
            Kind::Refused => b"refused",
            Kind::Show => b"show",
        }
    }

    /// The kind of the record: its word is that with which the record's line begins.
    #[tactic(auto, unfolding(world_model::specs::Play::kind_of))]
    fn of(happened: &Happened) -> Kind
        ensures { word_of result ≡ kind_of happened.now }
    {
        match happened {
            Happened::Up { .. } => Kind::Up,
            Happened::Down { .. } => Kind::Down,
            Happened::Ring { .. } => Kind::Ring,
            Happened::In { .. } => Kind::In,
            Happened::Base { .. } => Kind::Base,
            Happened::Put { .. } => Kind::Put,
            Happened::Heard { .. } => Kind::Heard,
            Happened::Cast { .. } => Kind::Cast,
            Happened::Asked { .. } => Kind::Asked,
            Happened::Told { .. } => Kind::Told,
            Happened::Noted { .. } => Kind::Noted,
            Happened::Refused { .. } => Kind::Refused,
            Happened::Shown { .. } => Kind::Show,
        }
    }

    /// The kind that has this word; none where no kind has it.
    #[tactic(auto, unfolding(crate::specs::Kinds::kind_word))]
    fn of_word(word: &[u8]) -> Option<Kind>
        ensures { result ≡ kind_word word.now }
    {
        Kind::ALL
            .iter()
            .copied()
            .find(|kind| is_word(kind.word(), word))
    }

    /// The bit that stands for it in a set.
    fn bit(self) -> u16
        ensures { result ≡ bit_of self }
    {
        1 << self as u16
    }
}

/// A set of kinds: those of which the records are shown.
#[derive(Clone, Copy, Debug, PartialEq, Eq)]
pub struct Kinds {
    bits: u16,
}

impl Kinds {
    /// Every kind.
    #[tactic(auto, unfolding(crate::specs::Kinds::all_kinds))]
    pub fn all() -> Kinds
        ensures { result ≡ all_kinds }
    {
        Kinds {
            bits: (1 << Kind::ALL.len()) - 1,
        }
    }

    /// No kind.
    #[tactic(auto, unfolding(crate::specs::Kinds::no_kinds))]
    pub fn none() -> Kinds
        ensures { result ≡ no_kinds }
    {
        Kinds { bits: 0 }
    }

    /// Is it one of these kinds?
    #[tactic(auto, unfolding(crate::specs::Kinds::has_kind))]
    pub fn contains(self, kind: Kind) -> bool
        ensures { result ≡ has_kind self kind }
    {
        self.bits & kind.bit() != 0
    }

    /// The kind is one of these from now on.
    #[tactic(auto, unfolding(crate::specs::Kinds::with_kind))]
    pub fn insert(&mut self, kind: Kind)
        ensures { self.new ≡ with_kind self.old kind }
    {
        self.bits |= kind.bit();
    }

    /// Is the record of one of these kinds?
    #[tactic(auto, using(crate::proofs::KindLaws::record_shown))]
    pub fn shows(&self, happened: &Happened) -> bool
        ensures { result ≡ shows self.now happened.now }
    {
        self.contains(Kind::of(happened))
    }

    /// The kind of this word more, which is not among them yet.
    #[tactic(auto, unfolding(crate::specs::Kinds::kind_step, value_words::specs::Answers::bind_opens))]
    fn with_word(mut self, word: &[u8]) -> Option<Kinds>
        ensures { result ≡ kind_step self word.now }
    {
        let kind = Kind::of_word(word)?;
        if self.contains(kind) {
            return None;
        }
        self.insert(kind);
        Some(self)
    }

    /// The kinds that the word lists, each by the word with which its lines begin, joined by commas, each once;
    /// none where it is no such list, as the empty word.
    #[tactic(auto, unfolding(crate::specs::Kinds::kinds_of), using(crate::proofs::KindLaws::kinds_fail, crate::proofs::KindLaws::kinds_last))]
    pub fn read(word: &[u8]) -> Option<Kinds>
        ensures { result ≡ kinds_of word.now }
    {
        let mut kinds = Kinds::none();
        let mut left = word;
        while let Some((w, after)) = cut_at(b',', left) {
            kinds = kinds.with_word(w)?;
            left = after;
        }
        kinds.with_word(left)
    }
}
