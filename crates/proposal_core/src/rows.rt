//! How a row is spelled: the voter, and a byte for what stands for it.
ghost use Rattle.std.specs.Prelude.{◌≡◌};
ghost use Rattle.rsct_packet.specs.Reading.{Gives};
ghost use Rattle.proposal_core.specs.EntryCodec.{row_vote_number, row_vote_at, row_at};

use crate::entry::{Row, RowVote, Vote};
use group_attr::DefaultVote;
use rsct_packet::{Item, NoMemory, known, put_provider, put_u8, read_provider, read_u8};

fn row_vote_number(vote: RowVote) -> u8
    ensures { result ≡ row_vote_number vote }
{
    match vote {
        RowVote::Cast(Vote::Approve) => 1,
        RowVote::Cast(Vote::Continue) => 2,
        RowVote::Cast(Vote::Reject) => 3,
        RowVote::Late(DefaultVote::Approve) => 4,
        RowVote::Late(DefaultVote::Reject) => 5,
        RowVote::Failed(DefaultVote::Approve) => 6,
        RowVote::Failed(DefaultVote::Reject) => 7,
    }
}

#[tactic(auto, unfolding(crate::specs::EntryCodec::row_vote_at))]
fn read_row_vote(bytes: &[u8]) -> Option<(RowVote, &[u8])>
    ensures { Gives result (row_vote_at bytes.now) }
{
    let (n, bytes) = read_u8(bytes)?;
    match n {
        1 => Some((RowVote::Cast(Vote::Approve), bytes)),
        2 => Some((RowVote::Cast(Vote::Continue), bytes)),
        3 => Some((RowVote::Cast(Vote::Reject), bytes)),
        4 => Some((RowVote::Late(DefaultVote::Approve), bytes)),
        5 => Some((RowVote::Late(DefaultVote::Reject), bytes)),
        6 => Some((RowVote::Failed(DefaultVote::Approve), bytes)),
        7 => Some((RowVote::Failed(DefaultVote::Reject), bytes)),
        _ => None,
    }
}

fn read_row(bytes: &[u8]) -> Option<(Row, &[u8])>
    ensures { Gives result (row_at bytes.now) }
{
    let (provider, bytes) = read_provider(bytes)?;
    let (vote, bytes) = read_row_vote(bytes)?;
    Some((Row { provider, vote }, bytes))
}

impl Item for Row {
    ghost use Rattle.rsct_packet.specs.Fields.{IsNode};
    ghost use Rattle.proposal_core.specs.EntryCodec.{row_at, row_text, IsRow};

    ghost read_at = { row_at };

    ghost text = { row_text };

    ghost fits = { IsRow };

    ghost can_put = { λ x. IsNode x.provider.node };

    #[tactic(auto, using(rsct_packet::proofs::FormatLaws::format_reads, crate::proofs::RowFormat::row_format))]
    fn read(bytes: &[u8]) -> Option<(Row, &[u8])> {
        read_row(known(bytes))
    }

    fn put(&self, out: &mut Vec<u8>) -> Result<(), NoMemory> {
        let before = out.len();
        put_provider(out, self.provider)?;
        if let Err(e) = put_u8(out, row_vote_number(self.vote)) {
            out.truncate(before);
            return Err(e);
        }
        Ok(())
    }

    #[tactic(auto, using(crate::proofs::RowFormat::row_format))]
    fn format_law() {}
}
