//! The chunks of its map that a joiner is sent.
ghost use Rattle.std.specs.Prelude.{◌≡◌, ◌==◌, ◌&&◌, IfOk, OnOk, flat_map, nat_lt, option_copied};
ghost use Rattle.std.specs.Option.{option_map};
ghost use Rattle.agreed_table.specs.InPlace.{chunk_now};
ghost use Rattle.table_client.specs.Rules.{counts_after, kept_if, kept_of, in_turn, all_came, received};

use agreed_table::{Chunk, Table, read_chunk};
use proposal_core::Closed;
use rsct_packet::{List, NoMemory};
use std::alloc::Global;
use std::marker::Model;

/// A chunk that is kept until all of its map have come.
#[derive(Drop)]
pub(crate) struct KeptChunk {
    number: u16,
    count: u16,
    bytes: Vec<u8>,
}

impl Model for KeptChunk {
    ghost use Rattle.agreed_table.specs.Chunks.{Chunk};

    ghost Value = { Chunk };

    ghost view = { λ c. record { number = c.number; count = c.count; bytes = c.bytes.items } };
}

impl KeptChunk {
    fn of(alloc: Global, chunk: &Chunk<'_>) -> Result<KeptChunk, NoMemory>
        ensures { IfOk result (λ c. c ≡ chunk_now chunk.now) }
    {
        Ok(KeptChunk {
            number: chunk.number,
            count: chunk.count,
            bytes: Vec::from_slice(alloc, chunk.bytes)?,
        })
    }

    fn number(&self) -> u16
        ensures { result ≡ self.now.number }
    {
        self.number
    }

    fn count(&self) -> u16
        ensures { result ≡ self.now.count }
    {
        self.count
    }

    fn bytes(&self) -> &[u8]
        ensures { result.now ≡ self.now.bytes }
    {
        self.bytes.as_slice()
    }
}

/// Is its count that of the chunks before it?
fn counts_after(chunks: &[KeptChunk], chunk: &Chunk<'_>) -> bool
    ensures { result ≡ counts_after chunks.now (chunk_now chunk.now) }
{
    match chunks {
        [] => true,
        [first, ..] => chunk.count == first.count(),
    }
}

/// Is it the chunk of this number, of as many as those before it are of?
fn is_wanted(chunks: &[KeptChunk], number: u16, chunk: &Chunk<'_>) -> bool
    ensures { result ≡ ((chunk_now chunk.now).number == number)
        && (nat_lt number (chunk_now chunk.now).count
        && counts_after chunks.now (chunk_now chunk.now)) }
{
    chunk.number == number && (number < chunk.count && counts_after(chunks, chunk))
}

/// Keeps a chunk where it is the one of this number.
fn keep_wanted(
    alloc: Global,
    chunks: &mut List<KeptChunk>,
    number: u16,
    chunk: Option<Chunk<'_>>,
) -> Result<(), NoMemory>
    ensures { OnOk result (chunks.new
        ≡ kept_if chunks.old number (option_map chunk_now chunk.entry)) }
{
    if let Some(chunk) = chunk {
        if is_wanted(chunks.as_slice(), number, &chunk) {
            let kept = KeptChunk::of(alloc, &chunk)?;
            chunks.push(kept)?;
        }
    }
    Ok(())
}

/// Keeps the chunk that the end of a phase brings: chunk k at the end of phase k + 1.
pub(crate) fn keep_chunk(
    alloc: Global,
    chunks: &mut List<KeptChunk>,
    closed: &Closed,
) -> Result<(), NoMemory>
    ensures { OnOk result (chunks.new ≡ kept_of chunks.old (Some closed.now)) }
{
    let number = closed.phase.saturating_sub(1);
    match &closed.message {
        None => Ok(()),
        Some(message) => keep_wanted(alloc, chunks, number, read_chunk(message.bytes())),
    }
}

/// Are they numbered from 0 on?
fn are_in_turn(chunks: &[KeptChunk]) -> bool
    ensures { result ≡ in_turn 0 chunks.now }
{
    let mut number = 0;
    for chunk in chunks {
        if chunk.number() as usize != number {
            return false;
        }
        number += 1;
    }
    true
}

/// Did all chunks of a map come?
fn have_all_come(chunks: &[KeptChunk]) -> bool
    ensures { result ≡ all_came chunks.now }
{
    match chunks {
        [] => false,
        [first, ..] => are_in_turn(chunks) && chunks.len() == first.count() as usize,
    }
}

/// Their bytes, one after another.
fn joined(alloc: Global, chunks: &[KeptChunk]) -> Result<Vec<u8>, NoMemory>
    ensures { IfOk result (λ v. v.items ≡ flat_map (λ c. c.bytes) chunks.now) }
{
    let mut bytes = Vec::new(alloc);
    for chunk in chunks {
        bytes.extend_from_slice(chunk.bytes())?;
    }
    Ok(bytes)
}

/// The table that the chunks say; none where not all of them came, or they say none.
#[tactic(auto, unfolding(crate::specs::Rules::received))]
pub(crate) fn received(alloc: Global, chunks: &[KeptChunk]) -> Result<Option<Table>, NoMemory>
    ensures { IfOk result (λ table. table ≡ received chunks.now) }
{
    if !have_all_come(chunks) {
        return Ok(None);
    }
    let bytes = joined(alloc, chunks)?;
    Table::of_chunks(alloc, bytes.as_slice())
}
