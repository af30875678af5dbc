//! How a failure is spelled: the provider, and a byte for the cause.
ghost use Rattle.std.specs.Prelude.{◌≡◌};
ghost use Rattle.rsct_packet.specs.Reading.{Gives};
ghost use Rattle.proposal_core.specs.ProposalCodec.{cause_number, cause_at, failure_at, same_failure};

use crate::proposal::{Cause, Failure};
use rsct_packet::{Item, NoMemory, known, put_provider, put_u8, read_provider, read_u8};

fn cause_number(cause: Cause) -> u8
    ensures { result ≡ cause_number cause }
{
    match cause {
        Cause::Died => 1,
        Cause::Gone => 2,
        Cause::Cast => 3,
    }
}

#[tactic(auto, unfolding(crate::specs::ProposalCodec::cause_at))]
fn read_cause(bytes: &[u8]) -> Option<(Cause, &[u8])>
    ensures { Gives result (cause_at bytes.now) }
{
    let (n, bytes) = read_u8(bytes)?;
    match n {
        1 => Some((Cause::Died, bytes)),
        2 => Some((Cause::Gone, bytes)),
        3 => Some((Cause::Cast, bytes)),
        _ => None,
    }
}

fn read_failure(bytes: &[u8]) -> Option<(Failure, &[u8])>
    ensures { Gives result (failure_at bytes.now) }
{
    let (provider, bytes) = read_provider(bytes)?;
    let (cause, bytes) = read_cause(bytes)?;
    Some((Failure { provider, cause }, bytes))
}

impl Item for Failure {
    ghost use Rattle.rsct_packet.specs.Fields.{IsNode};
    ghost use Rattle.proposal_core.specs.ProposalCodec.{failure_at, failure_text, IsFailure};

    ghost read_at = { failure_at };

    ghost text = { failure_text };

    ghost fits = { IsFailure };

    ghost can_put = { λ x. IsNode x.provider.node };

    #[tactic(auto, using(rsct_packet::proofs::FormatLaws::format_reads, crate::proofs::FailureFormat::failure_format))]
    fn read(bytes: &[u8]) -> Option<(Failure, &[u8])> {
        read_failure(known(bytes))
    }

    fn put(&self, out: &mut Vec<u8>) -> Result<(), NoMemory> {
        let before = out.len();
        put_provider(out, self.provider)?;
        if let Err(e) = put_u8(out, cause_number(self.cause)) {
            out.truncate(before);
            return Err(e);
        }
        Ok(())
    }

    #[tactic(auto, using(crate::proofs::FailureFormat::failure_format))]
    fn format_law() {}
}

/// Is it the same provider with the same cause?
pub fn is_same_failure(first: &Failure, second: &Failure) -> bool
    ensures { result ≡ same_failure first.now second.now }
{
    first.provider == second.provider && cause_number(first.cause) == cause_number(second.cause)
}
