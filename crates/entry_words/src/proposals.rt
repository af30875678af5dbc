//! Proposals.
ghost use Rattle.std.specs.Prelude.{◌≡◌, ◌++◌, OnOk, codes, decimal, flat_map};
ghost use Rattle.entry_words.specs.Wording.{attrs_text, source_len_text, cause_text, failure_text, asker_text, proposal_text};
ghost use Rattle.value_words.specs.Wording.{joined, providers_text, value_text, view_text};

use crate::attrs::put_attrs;
use group_attr::Attrs;
use proposal_core::{Cause, Failure, Proposal};
use rsct_packet::{NoMemory, ProviderId, Providers, Text, ViewId};
use value_words::{put_number, put_provider, put_providers, put_text, put_value, put_view};

#[tactic(auto, unfolding(crate::specs::Wording::source_len_text))]
fn put_source_len(out: &mut Vec<u8>, len: Option<u32>) -> Result<(), NoMemory>
    ensures { OnOk result (out.new.items ≡ out.old.items ++ source_len_text len) }
{
    match len {
        None => Ok(()),
        Some(n) => {
            put_text(out, b" src=")?;
            put_number(out, n)
        }
    }
}

#[tactic(auto, unfolding(crate::specs::Wording::cause_text))]
fn cause_text(cause: Cause) -> &'static [u8]
    ensures { result.now ≡ cause_text cause }
{
    match cause {
        Cause::Died => b":died",
        Cause::Gone => b":gone",
        Cause::Cast => b":cast",
    }
}

#[tactic(auto, unfolding(crate::specs::Wording::failure_text))]
fn put_failure(out: &mut Vec<u8>, failure: Failure) -> Result<(), NoMemory>
    ensures { OnOk result (out.new.items ≡ out.old.items ++ failure_text failure) }
{
    put_provider(out, failure.provider)?;
    put_text(out, cause_text(failure.cause))
}

/// Those that failed, each behind a comma.
fn put_more_failures(out: &mut Vec<u8>, failures: &[Failure]) -> Result<(), NoMemory>
    ensures { OnOk result (out.new.items ≡ out.old.items
        ++ flat_map (λ y. codes "," ++ failure_text y) failures.now) }
{
    for f in failures {
        put_text(out, b",")?;
        put_failure(out, *f)?;
    }
    Ok(())
}

/// Those that failed between commas, `-` for none.
#[tactic(auto, unfolding(value_words::specs::Wording::joined))]
fn put_failures(out: &mut Vec<u8>, failures: &[Failure]) -> Result<(), NoMemory>
    ensures { OnOk result (out.new.items ≡ out.old.items ++ joined failure_text failures.now) }
{
    match failures {
        [] => put_text(out, b"-"),
        [first, others @ ..] => {
            put_failure(out, *first)?;
            put_more_failures(out, others)
        }
    }
}

/// Who asks, and with which number.
#[tactic(auto, unfolding(crate::specs::Wording::asker_text))]
fn put_asker(out: &mut Vec<u8>, provider: ProviderId, request: u32) -> Result<(), NoMemory>
    ensures { OnOk result (out.new.items ≡ out.old.items ++ asker_text provider request) }
{
    put_provider(out, provider)?;
    put_text(out, b"/")?;
    put_number(out, request)
}

/// A label, and who asks behind it.
fn put_asked(
    out: &mut Vec<u8>,
    label: &[u8],
    provider: ProviderId,
    request: u32,
) -> Result<(), NoMemory>
    ensures { OnOk result
        (out.new.items ≡ out.old.items ++ (label.now ++ asker_text provider request)) }
{
    put_text(out, label)?;
    put_asker(out, provider, request)
}

/// A label, and behind it who asks, and a value.
fn put_asked_value(
    out: &mut Vec<u8>,
    label: &[u8],
    provider: ProviderId,
    request: u32,
    value: &Text,
) -> Result<(), NoMemory>
    ensures { OnOk result (out.new.items ≡ out.old.items
        ++ (label.now ++ asker_text provider request ++ codes " " ++ value_text value.now)) }
{
    put_asked(out, label, provider, request)?;
    put_text(out, b" ")?;
    put_value(out, value.bytes())
}

/// A join.
fn put_join(
    out: &mut Vec<u8>,
    providers: &Providers,
    attrs: &Attrs,
    source_len: Option<u32>,
) -> Result<(), NoMemory>
    ensures { OnOk result (out.new.items ≡ out.old.items
        ++ (codes "join " ++ providers_text providers.now ++ attrs_text attrs.now
        ++ source_len_text source_len)) }
{
    put_text(out, b"join ")?;
    put_providers(out, providers.as_slice())?;
    put_attrs(out, attrs)?;
    put_source_len(out, source_len)
}

/// A value that is reflected.
fn put_reflect(out: &mut Vec<u8>, view: ViewId, place: u32, value: &Text) -> Result<(), NoMemory>
    ensures { OnOk result (out.new.items ≡ out.old.items
        ++ (codes "reflect " ++ view_text view ++ codes "/" ++ decimal place ++ codes " "
        ++ value_text value.now)) }
{
    put_text(out, b"reflect ")?;
    put_view(out, view)?;
    put_text(out, b"/")?;
    put_number(out, place)?;
    put_text(out, b" ")?;
    put_value(out, value.bytes())
}

#[tactic(auto, unfolding(crate::specs::Wording::proposal_text))]
pub fn put_proposal(out: &mut Vec<u8>, proposal: &Proposal) -> Result<(), NoMemory>
    ensures { OnOk result (out.new.items ≡ out.old.items ++ proposal_text proposal.now) }
{
    match proposal {
        Proposal::Join {
            ps,
            attrs,
            source_len,
        } => put_join(out, ps, attrs, *source_len),
        Proposal::Leave { provider, request } => put_asked(out, b"leave ", *provider, *request),
        Proposal::Fail { out: fallen } => {
            put_text(out, b"fail ")?;
            put_failures(out, fallen.as_slice())
        }
        Proposal::Expel {
            provider,
            request,
            out: targets,
        } => {
            put_asked(out, b"expel ", *provider, *request)?;
            put_text(out, b" ")?;
            put_providers(out, targets.as_slice())
        }
        Proposal::State {
            provider,
            request,
            value,
        } => put_asked_value(out, b"state ", *provider, *request, value),
        Proposal::Message {
            provider,
            request,
            bytes,
        } => { put_asked_value(out, b"message ", *provider, *request, bytes) }
        Proposal::Attributes {
            provider,
            request,
            attrs,
        } => {
            put_asked(out, b"attrs ", *provider, *request)?;
            put_attrs(out, attrs)
        }
        Proposal::Reflect { view, place, value } => put_reflect(out, *view, *place, value),
    }
}
