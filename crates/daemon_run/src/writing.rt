//! What a daemon writes, the lines of records, and what it sends behind that.
ghost use Rattle.std.specs.Prelude.{◌≡◌, ◌≤◌, OnOk, OnErr, IfOk, IfErr};
ghost use Rattle.link_use.specs.Stops.{StopsBy};
ghost use Rattle.daemon_model.specs.Daemon.{records_text};
ghost use Rattle.daemon_model.specs.Counts.{sent_more};
ghost use Rattle.daemon_model.specs.Sent.{sent_calls, number_after};
ghost use Rattle.daemon_model.specs.Doings.{writes, step_doings, Made, MadeFront};
ghost use Rattle.daemon_run.specs.Doing.{WriteFails};

use hags_io::{Outside, Put};
use link_use::{Outbox, Stop};
use node_state::{Happened, Packet};
use rsct_packet::NoMemory;
use std::alloc::Global;
use transcript::line_of;

/// The lines of records.
#[tactic(auto, using(crate::proofs::WriteLaws::no_text, crate::proofs::WriteLaws::text_next, crate::proofs::WriteLaws::text_all))]
fn text_of(alloc: Global, records: &[Happened]) -> Result<Vec<u8>, NoMemory>
    ensures { IfOk result (λ text. text.items ≡ records_text records.now) }
{
    let mut text = Vec::new(alloc);
    for happened in records {
        let line = line_of(alloc, happened)?;
        text.extend_from_slice(line.as_slice())?;
    }
    Ok(text)
}

/// Writes the lines of what a step recorded, all at once; nothing where it recorded nothing.
#[tactic(auto, using(crate::proofs::WriteLaws::none_written, crate::proofs::WriteLaws::all_written, crate::proofs::WriteLaws::front_written, crate::proofs::WriteLaws::still_written, crate::proofs::FailLaws::write_fails, daemon_model::proofs::MadeLaws::none_made, hags_io::proofs::FrontLaws::ends_by_write))]
fn write_records<O: Outside>(
    alloc: Global,
    records: &[Happened],
    outside: &mut O,
) -> Result<(), Stop>
    ensures done { OnOk result (Made (O.told outside.old) (O.told outside.new)
        (writes records.now)) }
    ensures broke { OnErr result (MadeFront (O.told outside.old) (O.told outside.new)
        (writes records.now)) }
    ensures unwritten { IfErr result (λ stop. stop ≡ Stop.WriteFault
        → WriteFails (O.told outside.old) (O.told outside.new) (writes records.now)) }
    ensures fault { IfErr result (StopsBy (O.told outside.new)) }
{
    if records.is_empty() {
        return Ok(());
    }
    let text = text_of(alloc, records)?;
    match outside.write(text.as_slice()) {
        Put::Done => Ok(()),
        Put::Failed => Err(Stop::WriteFault),
        Put::NoMemory => Err(Stop::NoMemory),
    }
}

/// What a step recorded is written, and then what it sends goes out. Answers how many datagrams it sent, as if each went
/// out, up to 18,446,744,073,709,551,615.
#[tactic(auto, using(daemon_model::proofs::MadeLaws::made_on, daemon_model::proofs::MadeLaws::made_front_on, daemon_model::proofs::MadeLaws::made_front_more, crate::proofs::FailLaws::fails_more))]
pub(crate) fn write_and_send<O: Outside>(
    outbox: &mut Outbox,
    alloc: Global,
    records: &[Happened],
    sends: &[Packet],
    outside: &mut O,
) -> Result<u64, Stop>
    requires { outbox.old.me ≤ 32 }
    ensures count { IfOk result (λ n. n ≡ sent_more 0 (sent_calls outbox.old.me
        outbox.old.incarnation outbox.old.number sends.now)) }
    ensures done { OnOk result (Made (O.told outside.old) (O.told outside.new)
        (step_doings records.now (sent_calls outbox.old.me outbox.old.incarnation
        outbox.old.number sends.now))) }
    ensures number { OnOk result (outbox.new ≡ record outbox.old
        { number = number_after outbox.old.number sends.now }) }
    ensures broke { OnErr result (MadeFront (O.told outside.old) (O.told outside.new)
        (step_doings records.now (sent_calls outbox.old.me outbox.old.incarnation
        outbox.old.number sends.now))) }
    ensures unwritten { IfErr result (λ stop. stop ≡ Stop.WriteFault
        → WriteFails (O.told outside.old) (O.told outside.new) (step_doings records.now
        (sent_calls outbox.old.me outbox.old.incarnation outbox.old.number sends.now))) }
    ensures same { outbox.new.me ≡ outbox.old.me }
    ensures fault { IfErr result (StopsBy (O.told outside.new)) }
{
    write_records(alloc, records, outside)?;
    let sent = outbox.send_packets(alloc, sends, outside)?;
    Ok(sent)
}
