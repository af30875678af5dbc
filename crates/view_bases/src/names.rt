//! The names of the groups that an install carries.
ghost use Rattle.std.specs.Prelude.{◌≡◌, find, option_copied};
ghost use Rattle.view_state.specs.Codec.{is_after};
ghost use Rattle.view_state.specs.Bases.{names_in};
ghost use Rattle.view_bases.specs.Names.{is_nearer, nearer, nearest_in};

use view_state::{Install, Source, is_after, is_less};

/// Does the name come before the nearest so far, if there is one?
fn is_nearer(best: Option<&[u8]>, name: &[u8]) -> bool
    ensures { result ≡ is_nearer (option_copied best.entry) name.now }
{
    match best {
        None => true,
        Some(best) => is_less(name, best),
    }
}

/// The least name after the last one: the nearest so far, or this one.
fn nearer<'a>(last: Option<&[u8]>, best: Option<&'a [u8]>, name: &'a [u8]) -> Option<&'a [u8]>
    ensures { option_copied result ≡ nearer (option_copied last.entry)
        (option_copied best.entry) name.now }
{
    if is_after(last, name) && is_nearer(best, name) {
        Some(name)
    } else {
        best
    }
}

/// The least name after the last one: the nearest so far, or one of its parts.
#[tactic(auto, using(crate::proofs::NameLaws::nearest_one_more, std::proofs::lemmas::Grind::common_steps))]
fn nearest_in<'a>(
    source: &'a Source,
    last: Option<&[u8]>,
    best: Option<&'a [u8]>,
) -> Option<&'a [u8]>
    ensures { option_copied result ≡ nearest_in (option_copied last.entry)
        (option_copied best.entry) source.now.parts }
{
    let mut best = best;
    for part in source.parts.as_slice() {
        best = nearer(last, best, part.name.bytes());
    }
    best
}

/// The next of the names of groups that are carried, ascending: the least one after the last, or the least of all where there
/// is no last one. So all of them take one walk through the parts each.
#[tactic(auto, using(crate::proofs::NameLaws::nearest_source_more, crate::proofs::NameLaws::nearest_is_found, std::proofs::lemmas::Grind::common_steps))]
pub fn name_after<'a>(install: &'a Install, last: Option<&[u8]>) -> Option<&'a [u8]>
    ensures { option_copied result ≡ find (is_after (option_copied last.entry))
        (names_in install.now.sources) }
{
    let mut best = None;
    for source in install.sources.as_slice() {
        best = nearest_in(source, last, best);
    }
    best
}
