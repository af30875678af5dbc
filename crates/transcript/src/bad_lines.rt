//! What is said of a bad line of a script.
ghost use Rattle.std.specs.Prelude.{◌≡◌, ◌++◌, OnOk, IfOk, codes, decimal};
ghost use Rattle.world_model.specs.Play.{why_text};

use rsct_packet::NoMemory;
use std::alloc::Global;
use value_words::{put_number, put_text};
use world_model::LineWhy;

/// Why the line is in no script.
#[tactic(auto, unfolding(world_model::specs::Play::why_text))]
pub fn why_text(why: LineWhy) -> &'static [u8]
    ensures { result.now ≡ why_text why }
{
    match why {
        LineWhy::Long => b"long",
        LineWhy::BadByte => b"bad byte",
        LineWhy::UnknownWord => b"unknown word",
        LineWhy::MissingWord => b"missing word",
        LineWhy::ExtraWord => b"extra word",
        LineWhy::BadWord => b"bad word",
        LineWhy::UnknownNode => b"unknown node",
        LineWhy::UnknownClient => b"unknown client",
        LineWhy::OutOfPlace => b"out of place",
        LineWhy::NoSharedNetwork => b"no shared network",
        LineWhy::IsAPacket => b"is a packet",
        LineWhy::BoxedClient => b"boxed client",
    }
}

/// Says of the line with this number why it is in no script.
pub fn put_fault_line(out: &mut Vec<u8>, number: u32, why: LineWhy) -> Result<(), NoMemory>
    ensures { OnOk result (out.new.items ≡ out.old.items
        ++ (codes "hags: line " ++ decimal number ++ codes ": " ++ why_text why ++ codes "\n")) }
{
    put_text(out, b"hags: line ")?;
    put_number(out, number)?;
    put_text(out, b": ")?;
    put_text(out, why_text(why))?;
    put_text(out, b"\n")
}

/// What is written in place of a transcript, of a script whose first bad line has this number.
pub fn fault_line(alloc: Global, number: u32, why: LineWhy) -> Result<Vec<u8>, NoMemory>
    ensures { IfOk result (λ l. l.items ≡ codes "hags: line " ++ decimal number ++ codes ": "
        ++ why_text why ++ codes "\n") }
{
    let mut out = Vec::new(alloc);
    put_fault_line(&mut out, number, why)?;
    Ok(out)
}
