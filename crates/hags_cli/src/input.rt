//! The whole of an input.
ghost use Rattle.std.specs.Prelude.{◌≡◌, ◌≤◌, length, IfOk, IfErr, IfSome};
ghost use Rattle.std.specs.Io.KnownBytes.{IsAtEnd};
ghost use Rattle.hags_cli.specs.Run.{ReadsAs, InputFails};
ghost use Rattle.hags_cli.specs.declared.input.InputFault.TheVariants as input_fault;

use hags_io::{Source, Taken};
use script_reader::INPUT_LIMIT;
use std::alloc::{AllocError, Global};

/// Why an input was not read: the source failed, or memory has run out.
#[derive(Clone, Copy, Debug, PartialEq, Eq)]
pub enum InputFault {
    ReadFault,
    NoMemory,
}

impl From<AllocError> for InputFault {
    ghost from_gives = { λ _ e. e ≡ input_fault.NoMemory };

    fn from(_e: AllocError) -> InputFault {
        InputFault::NoMemory
    }
}

/// Reads an input to its end, or past its limit. What stands behind the bytes that were read changes nothing: the
/// line that passes the limit is in no script.
#[tactic(auto, using(crate::proofs::InputLaws::all_taken, crate::proofs::InputLaws::whole_taken, crate::proofs::InputLaws::more_taken))]
pub fn read_input<S: Source>(alloc: Global, input: &mut S) -> Result<Vec<u8>, InputFault>
    ensures front { IfOk result (λ front. IfSome (S.left input.old) (ReadsAs front.items)) }
    ensures whole { IfOk result (λ front. length front.items ≤ INPUT_LIMIT
        → IfSome (S.left input.old) (λ b. b ≡ front.items)) }
    ensures end { IfOk result (λ front. length front.items ≤ INPUT_LIMIT
        → IsAtEnd (S.left input.new)) }
    ensures later { S.faults input.old ≤ S.faults input.new }
    ensures fault { IfErr result (InputFails (S.faults input.old) (S.faults input.new)) }
{
    let mut front = Vec::new(alloc);
    let mut buf = [0u8; 4096];
    while front.len() <= INPUT_LIMIT {
        match input.take(&mut buf) {
            Taken::End => return Ok(front),
            Taken::Failed => return Err(InputFault::ReadFault),
            Taken::Bytes(n) => front.extend_from_slice(&buf[..n])?,
        }
    }
    Ok(front)
}
