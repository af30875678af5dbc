//! What a client writes: the answers to its calls, and its events.
ghost use Rattle.std.specs.Prelude.{◌≡◌, ◌++◌, ◌+◌, drop, length, OnOk, IfOk};
ghost use Rattle.client_run.specs.Turns.{answer_line, event_lines};

use remote_session::Far;
use rsct_packet::NoMemory;
use value_words::{put_number, put_text};

/// The line of the answer to the call of this number, at the end.
#[tactic(auto, unfolding(crate::specs::Turns::answer_line))]
pub fn put_answer(out: &mut Vec<u8>, number: u32, taken: bool) -> Result<(), NoMemory>
    ensures { OnOk result (out.new.items ≡ out.old.items ++ answer_line number taken) }
{
    put_text(out, b"did ")?;
    put_number(out, number)?;
    put_text(out, if taken { b" taken\n" } else { b" refused\n" })
}

/// The lines of the events from this place on, at the end; answers the place behind them. No end of a session has
/// 4,294,967,295 events; if it had, that would count as want of memory.
#[tactic(auto, using(crate::proofs::TextLaws::events_next, crate::proofs::TextLaws::events_end, crate::proofs::TextLaws::count_next, crate::proofs::TextLaws::count_end))]
pub fn put_events(out: &mut Vec<u8>, far: &Far, from: u32) -> Result<u32, NoMemory>
    ensures text { OnOk result (out.new.items
        ≡ out.old.items ++ event_lines (drop from far.now.heard)) }
    ensures count { IfOk result (λ to. to ≡ from + length (drop from far.now.heard)) }
{
    for place in from..u32::MAX {
        match far.heard(place) {
            None => return Ok(place),
            Some(line) => {
                put_text(out, line)?;
                out.push(b'\n')?;
            }
        }
    }
    Err(NoMemory)
}
