//! Records as they are written: in blocks, since each write is a call of the system.
ghost use Rattle.std.specs.Prelude.{◌≡◌, ◌≤◌, ◌++◌, ◌∷◌, [], OnOk};
ghost use Rattle.std.specs.Io.KnownBytes.{Appends};
ghost use Rattle.hags_io.specs.Edges.{GrowsByFront, Rose};
ghost use Rattle.transcript.specs.Kinds.{kinds_text};
ghost use Rattle.net_script.specs.Writing.{Writes};

use hags_io::{Put, Sink};
use node_state::Happened;
use play_state::PutFault;
use rsct_packet::NoMemory;
use std::alloc::Global;
use transcript::{Kinds, put_line};

/// How many bytes are written at once, at least; fewer only at the end.
const BLOCK: usize = 65536;

/// All of these bytes are written, or a front of them.
#[tactic(auto, using(crate::proofs::TextLaws::all_front))]
pub fn put_all<K: Sink>(bytes: &[u8], out: &mut K) -> Result<(), PutFault>
    ensures done { OnOk result (Appends (K.held out.old) (K.held out.new) bytes.now) }
    ensures front { GrowsByFront (K.held out.old) (K.held out.new) bytes.now }
    ensures later { K.faults out.old ≤ K.faults out.new }
    ensures fault { result ≡ Err PutFault.WriteFault
        → Rose (K.faults out.old) (K.faults out.new) }
{
    match out.put(bytes) {
        Put::Done => Ok(()),
        Put::Failed => Err(PutFault::WriteFault),
        Put::NoMemory => Err(PutFault::NoMemory),
    }
}

/// The line of a record, at the end of the text, where its kind is shown.
#[tactic(auto, using(crate::proofs::TextLaws::shown_text, crate::proofs::TextLaws::hidden_text))]
fn put_record(
    text: &mut Vec<u8>,
    alloc: Global,
    kinds: Kinds,
    happened: &Happened,
) -> Result<(), NoMemory>
    ensures { OnOk result (text.new.items ≡ text.old.items
        ++ kinds_text kinds (happened.now ∷ [])) }
{
    if kinds.shows(happened) {
        put_line(alloc, text, happened)
    } else {
        Ok(())
    }
}

/// The lines of the records of these kinds, at the end of the text.
#[tactic(auto, using(crate::proofs::TextLaws::text_more, crate::proofs::TextLaws::no_text))]
fn put_records(
    text: &mut Vec<u8>,
    alloc: Global,
    kinds: Kinds,
    records: &[Happened],
) -> Result<(), NoMemory>
    ensures { OnOk result (text.new.items ≡ text.old.items ++ kinds_text kinds records.now) }
{
    for happened in records {
        put_record(text, alloc, kinds, happened)?;
    }
    Ok(())
}

/// The text is written in one call, which is not made where it is empty. After a fault a front of it was written,
/// which may end within a line.
#[tactic(auto, using(crate::proofs::TextLaws::none_written, crate::proofs::TextLaws::none_front))]
pub fn write_rest<K: Sink>(text: &[u8], out: &mut K) -> Result<(), PutFault>
    ensures done { OnOk result (Appends (K.held out.old) (K.held out.new) text.now) }
    ensures front { GrowsByFront (K.held out.old) (K.held out.new) text.now }
    ensures later { K.faults out.old ≤ K.faults out.new }
    ensures fault { result ≡ Err PutFault.WriteFault
        → Rose (K.faults out.old) (K.faults out.new) }
{
    if text.is_empty() {
        Ok(())
    } else {
        put_all(text, out)
    }
}

/// A text that has a block is written, and then is empty.
#[tactic(auto, using(crate::proofs::TextLaws::whole_block, crate::proofs::TextLaws::writes_none, crate::proofs::TextLaws::none_front, crate::proofs::TextLaws::all_front))]
fn write_block<K: Sink>(text: &mut Vec<u8>, out: &mut K) -> Result<(), PutFault>
    ensures done { OnOk result (Writes (K.held out.old) text.old.items
        (K.held out.new) text.new.items []) }
    ensures front { GrowsByFront (K.held out.old) (K.held out.new) text.old.items }
    ensures later { K.faults out.old ≤ K.faults out.new }
    ensures fault { result ≡ Err PutFault.WriteFault
        → Rose (K.faults out.old) (K.faults out.new) }
{
    if text.len() < BLOCK {
        return Ok(());
    }
    put_all(text.as_slice(), out)?;
    text.clear();
    Ok(())
}

/// The lines of the records of these kinds come behind the text, which is written as soon as it has a block. After a
/// fault a front of both was written, which may end within a line.
#[tactic(auto, using(crate::proofs::TextLaws::block_done, crate::proofs::TextLaws::block_front, crate::proofs::TextLaws::none_front))]
pub fn write_records<K: Sink>(
    text: &mut Vec<u8>,
    alloc: Global,
    kinds: Kinds,
    records: &[Happened],
    out: &mut K,
) -> Result<(), PutFault>
    ensures done { OnOk result (Writes (K.held out.old) text.old.items
        (K.held out.new) text.new.items (kinds_text kinds records.now)) }
    ensures front { GrowsByFront (K.held out.old) (K.held out.new)
        (text.old.items ++ kinds_text kinds records.now) }
    ensures later { K.faults out.old ≤ K.faults out.new }
    ensures fault { result ≡ Err PutFault.WriteFault
        → Rose (K.faults out.old) (K.faults out.new) }
{
    put_records(text, alloc, kinds, records)?;
    write_block(text, out)
}
