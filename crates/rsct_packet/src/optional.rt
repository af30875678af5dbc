//! Optional fields: the byte 0, or the byte 1 and the field.
ghost use Rattle.std.specs.Prelude.{◌≡◌, ◌++◌, OnOk, OnErr, option_copied};
ghost use Rattle.std.specs.Int.{w8, w32};
ghost use Rattle.rsct_packet.specs.Reading.{Gives, GivesOptionalPart, number_at, optional_at};
ghost use Rattle.rsct_packet.specs.Format.{OptionFits, optional_text, IsFoundAt, IsOnlyAt, optional_part_of};
ghost use Rattle.rsct_packet.specs.Fields.{AreShort, IsNode, IsU32, IsProto, u32_text, bytes_at, bytes_text, proto_at, proto_text};

use crate::fronts::{bytes_at, proto_at, u8_at, u32_at};
use crate::ids::{NoMemory, ProtoId};
use crate::reading::known;
use crate::writing::{put_bytes, put_proto, put_u8, put_u32};

fn optional_u32_at(bytes: &[u8]) -> Option<(Option<u32>, &[u8])>
    ensures { Gives result (optional_at (number_at w32) bytes.now) }
{
    let (k, bytes) = u8_at(bytes)?;
    match k {
        0 => Some((None, bytes)),
        1 => {
            let (n, bytes) = u32_at(bytes)?;
            Some((Some(n), bytes))
        }
        _ => None,
    }
}

fn optional_bytes_at(spelling: &[u8]) -> Option<(Option<&[u8]>, &[u8])>
    ensures { GivesOptionalPart result (optional_at bytes_at spelling.now) }
{
    let (k, spelling) = u8_at(spelling)?;
    match k {
        0 => Some((None, spelling)),
        1 => {
            let (bytes, spelling) = bytes_at(spelling)?;
            Some((Some(bytes), spelling))
        }
        _ => None,
    }
}

fn optional_proto_at(bytes: &[u8]) -> Option<(Option<ProtoId>, &[u8])>
    ensures { Gives result (optional_at proto_at bytes.now) }
{
    let (k, bytes) = u8_at(bytes)?;
    match k {
        0 => Some((None, bytes)),
        1 => {
            let (proto, bytes) = proto_at(bytes)?;
            Some((Some(proto), bytes))
        }
        _ => None,
    }
}

/// A number of 4 bytes, or none.
#[tactic(auto, using(crate::proofs::FormatLaws::format_reads, crate::proofs::FormatLaws::optional_format, crate::proofs::FormatLaws::u32_format))]
pub fn read_optional_u32(bytes: &[u8]) -> Option<(Option<u32>, &[u8])>
    ensures value { Gives result (optional_at (number_at w32) bytes.now) }
    ensures found { IsFoundAt (optional_text u32_text) (OptionFits IsU32) result bytes.now }
    ensures only { IsOnlyAt (optional_text u32_text) (OptionFits IsU32) result bytes.now }
{
    optional_u32_at(known(bytes))
}

/// Bytes behind their length, or none.
#[tactic(auto, using(crate::proofs::FormatLaws::format_reads, crate::proofs::FormatLaws::optional_part_gives, crate::proofs::FormatLaws::optional_format, crate::proofs::FieldLaws::bytes_format))]
pub fn read_optional_bytes(bytes: &[u8]) -> Option<(Option<&[u8]>, &[u8])>
    ensures value { GivesOptionalPart result (optional_at bytes_at bytes.now) }
    ensures found { IsFoundAt (optional_text bytes_text) (OptionFits AreShort)
        (optional_part_of result) bytes.now }
    ensures only { IsOnlyAt (optional_text bytes_text) (OptionFits AreShort)
        (optional_part_of result) bytes.now }
{
    optional_bytes_at(known(bytes))
}

/// A protocol, or none.
#[tactic(auto, using(crate::proofs::FormatLaws::format_reads, crate::proofs::FormatLaws::optional_format, crate::proofs::FieldLaws::proto_format))]
pub fn read_optional_proto(bytes: &[u8]) -> Option<(Option<ProtoId>, &[u8])>
    ensures value { Gives result (optional_at proto_at bytes.now) }
    ensures found { IsFoundAt (optional_text proto_text) (OptionFits IsProto) result bytes.now }
    ensures only { IsOnlyAt (optional_text proto_text) (OptionFits IsProto) result bytes.now }
{
    optional_proto_at(known(bytes))
}

pub fn put_optional_u32(out: &mut Vec<u8>, number: Option<u32>) -> Result<(), NoMemory>
    ensures ok { OnOk result (out.new.items ≡ out.old.items ++ optional_text u32_text number) }
    ensures err { OnErr result (out.new.items ≡ out.old.items) }
{
    let before = out.len();
    match number {
        None => put_u8(out, 0),
        Some(n) => {
            put_u8(out, 1)?;
            if let Err(e) = put_u32(out, n) {
                out.truncate(before);
                return Err(e);
            }
            Ok(())
        }
    }
}

pub fn put_optional_bytes(out: &mut Vec<u8>, bytes: Option<&[u8]>) -> Result<(), NoMemory>
    requires { OptionFits AreShort (option_copied bytes) }
    ensures ok { OnOk result (out.new.items ≡ out.old.items
        ++ optional_text bytes_text (option_copied bytes.entry)) }
    ensures err { OnErr result (out.new.items ≡ out.old.items) }
{
    let before = out.len();
    match bytes {
        None => put_u8(out, 0),
        Some(b) => {
            put_u8(out, 1)?;
            if let Err(e) = put_bytes(out, b) {
                out.truncate(before);
                return Err(e);
            }
            Ok(())
        }
    }
}

pub fn put_optional_proto(out: &mut Vec<u8>, proto: Option<ProtoId>) -> Result<(), NoMemory>
    requires { OptionFits (λ p. IsNode p.view.coord) proto }
    ensures ok { OnOk result (out.new.items ≡ out.old.items ++ optional_text proto_text proto) }
    ensures err { OnErr result (out.new.items ≡ out.old.items) }
{
    let before = out.len();
    match proto {
        None => put_u8(out, 0),
        Some(p) => {
            put_u8(out, 1)?;
            if let Err(e) = put_proto(out, p) {
                out.truncate(before);
                return Err(e);
            }
            Ok(())
        }
    }
}
