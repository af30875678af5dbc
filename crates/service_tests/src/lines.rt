//! Every kind of line, with its faults beside the neighbours that are taken.
use node_state::{CallLine, Config, Mode};
use rsct_packet::NoMemory;
use script_reader::{INPUT_LIMIT, ScriptFault, read_script};
use std::alloc::Global;
use std::process::Abort;
use world_model::{Event, Line, LineWhy, Script};

fn script(rt: &impl Abort, alloc: Global, text: &[u8]) -> Script {
    read_script(alloc, text).ok().expect(rt, "a script")
}

/// How many lines the script has after `begin`; none for a fault.
fn count(alloc: Global, text: &[u8]) -> Option<usize> {
    match read_script(alloc, text) {
        Ok(script) => Some(script.lines.len()),
        Err(_) => None,
    }
}

/// The number of the first bad line, and its first reason.
fn fault(alloc: Global, text: &[u8]) -> Option<(u32, LineWhy)> {
    match read_script(alloc, text) {
        Err(ScriptFault::Line(number, why)) => Some((number, why)),
        _ => None,
    }
}

/// Every setting, with the greatest numbers that are taken.
const SETTINGS: &[u8] =
    b"mode asked\nnode 1\nnode 32\nadapter 1 4 10.0.0.1\nadapter 32 4 255.255.255.255\nhb 100 2\nport 65000\nlevel 32 4294967295\ndomain 7\n";

/// Are these the nodes and the addresses of `SETTINGS`?
fn has_addresses(config: &Config) -> bool {
    config.nodes.bits == 0x8000_0001
        && config.addr[3][0] == 0x0a00_0001
        && config.addr[3][31] == u32::MAX
        && config.addr[0][0] == 0
}

/// Are these the other settings of `SETTINGS`?
fn has_settings(config: &Config) -> bool {
    config.mode == Mode::Asked
        && config.every == 100
        && config.misses == 2
        && config.port == 65000
        && config.level_from[31] == u32::MAX
        && config.domain == 7
}

#[test]
fn settings(rt: HostRuntime) {
    let script = script(&rt, rt.alloc(), SETTINGS);
    assert!(rt; has_addresses(&script.config));
    assert!(rt; has_settings(&script.config));
    assert!(rt; !script.begun);
}

/// Has node 3 its plain address alone, on rings?
fn has_plain_address(config: &Config) -> bool {
    config.mode == Mode::Rings && config.addr[0][2] == 0x0a01_0003 && config.addr[0][1] == 0
}

#[test]
fn plain_addresses(rt: HostRuntime) {
    let script = script(&rt, rt.alloc(), b"\n# rings\nnode 3\nbegin\n");
    assert!(rt; has_plain_address(&script.config));
    assert!(rt; script.begun);
}

#[test]
fn events(rt: HostRuntime) {
    let text =
        b"mode asked\nnode 1\nnode 2\nbegin\nstart 1\nstop 1\nask 1 2 1 2\ntick 2\nrun 10000\ndeliver 1 2 0\ndrop 1 2\n  flow  \ncut 1 1\nheal 1 2 4\ngarbage 1 0aFf\nshow 2 hagsvote\n";
    assert!(rt; count(rt.alloc(), text) == Some(12));
}

#[test]
fn calls(rt: HostRuntime) {
    let text =
        b"mode fixed\nnode 1\nbegin\nclient 1 a A,C=x,-,R=~\njoin a g 65535 phases=n batch=both default=reject limit=3 source=s sphases=1 slimit=0\nleave a g n\nexpel a g 1 1.1.7.1 1.1.7.1\nstate a g 1 x%20y\nmessage a g n ~\nattrs a g 1 limit=2\nvote a g C=~\nsubscribe a g\nunsubscribe a g\ngoodbye a\n";
    assert!(rt; count(rt.alloc(), text) == Some(11));
}

/// The node, the instance and the limit of a join.
fn joined(script: &Script, place: usize) -> Option<(u8, u16, u16)> {
    match script.lines.get(place)? {
        Line::Plain(
            Event::Call(
                node,
                CallLine::Join {
                    instance,
                    attrs,
                    ..
                },
            ),
        ) => { Some((*node, *instance, attrs.limit)) }
        _ => None,
    }
}

/// The bits of the nodes that are asked for.
fn asked(script: &Script, place: usize) -> Option<u32> {
    match script.lines.get(place)? {
        Line::Plain(Event::Ask(_, mask)) => Some(mask.bits),
        _ => None,
    }
}

#[test]
fn values(rt: HostRuntime) {
    let text =
        b"mode asked\nnode 1\nnode 2\nbegin\nclient 2 b -\nclient 1 a A\njoin b g 7 slimit=4 limit=77\nask 1 2 1 2\n";
    let script = script(&rt, rt.alloc(), text);
    assert!(rt; joined(&script, 2) == Some((2, 7, 77)));
    assert!(rt; asked(&script, 3) == Some(3));
}

#[test]
fn bad_settings(rt: HostRuntime) {
    for line in [
        b"mode foo\n".as_slice(),
        b"node 33\n".as_slice(),
        b"node 01\n".as_slice(),
        b"adapter 1 5 10.0.0.1\n".as_slice(),
        b"adapter 1 1 0.0.0.0\n".as_slice(),
        b"adapter 1 1 1.2.3.256\n".as_slice(),
        b"hb 101 4\n".as_slice(),
        b"hb 1 1\n".as_slice(),
        b"port 65001\n".as_slice(),
        b"level 3 4294967296\n".as_slice(),
        b"domain 0\n".as_slice(),
    ] {
        assert!(rt; fault(rt.alloc(), line) == Some((1, LineWhy::BadWord)));
    }
}

/// A line after `begin`, in a script of nodes 1 and 2 that are asked for views.
fn after_begin(alloc: Global, line: &[u8]) -> Result<Vec<u8>, NoMemory> {
    let head = b"mode asked\nnode 1\nnode 2\nbegin\nclient 1 a A\n";
    let mut text = Vec::from_slice(alloc, head)?;
    text.extend_from_slice(line)?;
    Ok(text)
}

/// The reason against such a line.
fn reason(rt: &impl Abort, alloc: Global, line: &[u8]) -> Option<LineWhy> {
    let text = after_begin(alloc, line).expect(rt, "memory");
    match fault(alloc, &text)? {
        (6, why) => Some(why),
        _ => None,
    }
}

#[test]
fn bad_words(rt: HostRuntime) {
    for line in [
        b"run 10001\n".as_slice(),
        b"deliver 1 2 4294967296\n".as_slice(),
        b"cut 1 2 5\n".as_slice(),
        b"garbage 1 abc\n".as_slice(),
        b"show 1 foo\n".as_slice(),
        b"client 1 abcdefghijklmnopq A\n".as_slice(),
        b"client 1 b X\n".as_slice(),
        b"join a g 65536\n".as_slice(),
        b"join a g 1 limit=1 limit=1\n".as_slice(),
        b"leave a g 2\n".as_slice(),
        b"expel a g 1 1.1.7\n".as_slice(),
        b"state a g 1 %2\n".as_slice(),
        b"vote a g A=\n".as_slice(),
        b"subscribe a g/h\n".as_slice(),
    ] {
        assert!(rt; reason(&rt, rt.alloc(), line) == Some(LineWhy::BadWord));
    }
}

#[test]
fn reasons(rt: HostRuntime) {
    for (line, why) in [
        (b"flow \x7f\n".as_slice(), LineWhy::BadByte),
        (b" # x\n".as_slice(), LineWhy::UnknownWord),
        (b"flow".as_slice(), LineWhy::MissingWord),
        (b"# x".as_slice(), LineWhy::MissingWord),
        (b"cut 1\n".as_slice(), LineWhy::MissingWord),
        (b"cut 1 2 3 4\n".as_slice(), LineWhy::ExtraWord),
        (b"tick 3\n".as_slice(), LineWhy::UnknownNode),
        (b"ask 1 1 3\n".as_slice(), LineWhy::UnknownNode),
        (b"goodbye b\n".as_slice(), LineWhy::UnknownClient),
        (b"ask 1 2 2\n".as_slice(), LineWhy::OutOfPlace),
        (b"client 2 a A\n".as_slice(), LineWhy::OutOfPlace),
        (b"node 3\n".as_slice(), LineWhy::OutOfPlace),
        (b"begin\n".as_slice(), LineWhy::OutOfPlace),
        (b"client 2 b boxed\n".as_slice(), LineWhy::BoxedClient),
        (
            b"garbage 1 52470101010201000000000100000009000000030300000001\n".as_slice(),
            LineWhy::IsAPacket,
        ),
    ] {
        assert!(rt; reason(&rt, rt.alloc(), line) == Some(why));
    }
    assert!(rt; reason(&rt, rt.alloc(), b"client 1 a -\n").is_none());
    let short = b"garbage 1 524701010102010000000001000000090000000303000000\n";
    assert!(rt; reason(&rt, rt.alloc(), short).is_none());
}

/// Is the script's first bad line the one of this number, for this reason?
fn is_bad(alloc: Global, text: &[u8], number: u32, why: LineWhy) -> bool {
    fault(alloc, text) == Some((number, why))
}

#[test]
fn reasons_before_begin(rt: HostRuntime) {
    let alloc = rt.alloc();
    let apart = b"node 1\nnode 2\nadapter 1 1 1.1.1.1\nadapter 2 2 1.1.1.2\nbegin\n";
    assert!(rt; is_bad(alloc, apart, 5, LineWhy::NoSharedNetwork));
    let same = b"node 1\nnode 2\nadapter 1 1 1.1.1.1\nadapter 2 1 1.1.1.1\n";
    assert!(rt; is_bad(alloc, same, 4, LineWhy::OutOfPlace));
    assert!(rt; is_bad(alloc, b"hb 1 2\nhb 1 2\n", 2, LineWhy::OutOfPlace));
    assert!(rt; is_bad(alloc, b"node 1\nflow\n", 2, LineWhy::OutOfPlace));
}

/// A comment of so many signs.
fn comment(rt: &impl Abort, alloc: Global, signs: usize) -> Vec<u8> {
    let mut text = vec![in alloc; b'#'; signs].expect(rt, "memory");
    text.push(b'\n').expect(rt, "memory");
    text
}

#[test]
fn long_inputs(rt: HostRuntime) {
    let alloc = rt.alloc();
    assert!(rt; count(alloc, &comment(&rt, alloc, INPUT_LIMIT - 1)) == Some(0));
    assert!(rt; is_bad(alloc, &comment(&rt, alloc, INPUT_LIMIT), 1, LineWhy::Long));
}
