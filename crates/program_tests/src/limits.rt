//! A play whose packets pass the limit.
use hags_io::MemSink;
use net_script::play;
use play_state::PlayFault;
use script_reader::read_script;
use std::test::Fail;
use transcript::Kinds;

const ONE_JOIN: &[u8] = b"mode fixed\nnode 1\nbegin\nclient 1 a A\njoin a db 7\nflow\n";

const STARTED: &[u8] = b"up 1 1\nin 1 1.1.1 1.1\n";

const JOINED: &[u8] =
    b"up 1 1\nin 1 1.1.1 1.1\nasked 1.1.7.1 1 db join\nput 1 1.1.1 db 0 once join 1.1.7.1\nheard 1.1.7.1 1.1.1 db 0 once-join 1.1.7.1 =\n";

/// The request of a join has 68 bytes.
#[test]
fn a_play_ends_where_too_much_is_kept(rt: HostRuntime) -> Result<(), Fail> {
    let alloc = rt.alloc();
    let script = read_script(alloc, ONE_JOIN)?;
    let mut out = MemSink::new(alloc, Vec::new(alloc));
    let ended = play(alloc, &script, Kinds::all(), 67, &mut out);
    assert!(rt; ended == Err(PlayFault::Kept(68)));
    assert!(rt; out.held() == STARTED);
    let mut out = MemSink::new(alloc, Vec::new(alloc));
    let ended = play(alloc, &script, Kinds::all(), 68, &mut out);
    assert!(rt; ended.is_ok());
    assert!(rt; out.held() == JOINED);
    Ok(())
}
