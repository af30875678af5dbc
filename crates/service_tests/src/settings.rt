//! Settings of a node: every rule of them, with its fault beside a neighbour that is taken.
use node_state::CallLine;
use script_reader::{ScriptFault, read_daemon, read_script};
use std::alloc::Global;
use std::process::Abort;
use world_model::{LineWhy, Script};

/// How many calls the settings of a daemon of node 1 have, with so many objects; none for a fault.
fn served(alloc: Global, objects: u32, text: &[u8]) -> Option<usize> {
    match read_daemon(alloc, text, 1, Some(objects)) {
        Ok(script) => Some(script.texts.len()),
        Err(_) => None,
    }
}

/// How many calls the settings have with which node 1 is asked; none for a fault.
fn asked(alloc: Global, text: &[u8]) -> Option<usize> {
    match read_daemon(alloc, text, 1, None) {
        Ok(script) => Some(script.texts.len()),
        Err(_) => None,
    }
}

/// The first bad line of the settings of a daemon of node 1, and its reason.
fn fault(alloc: Global, objects: u32, text: &[u8]) -> Option<(u32, LineWhy)> {
    match read_daemon(alloc, text, 1, Some(objects)) {
        Err(ScriptFault::Line(number, why)) => Some((number, why)),
        _ => None,
    }
}

/// The same, of settings with which the node is asked.
fn asking_fault(alloc: Global, text: &[u8]) -> Option<(u32, LineWhy)> {
    match read_daemon(alloc, text, 1, None) {
        Err(ScriptFault::Line(number, why)) => Some((number, why)),
        _ => None,
    }
}

#[test]
fn begin(rt: HostRuntime) {
    let alloc = rt.alloc();
    assert!(rt; served(alloc, 0, b"node 1\nbegin\n") == Some(0));
    assert!(rt; fault(alloc, 0, b"node 1\n") == Some((2, LineWhy::MissingWord)));
    assert!(rt; fault(alloc, 0, b"node 1\nbegin") == Some((2, LineWhy::MissingWord)));
    assert!(rt; asking_fault(alloc, b"") == Some((1, LineWhy::MissingWord)));
}

#[test]
fn own_node(rt: HostRuntime) {
    let alloc = rt.alloc();
    assert!(rt; fault(alloc, 0, b"node 2\nbegin\n") == Some((2, LineWhy::UnknownNode)));
    assert!(rt; asking_fault(alloc, b"node 2\nbegin\n") == Some((2, LineWhy::UnknownNode)));
}

#[test]
fn mode(rt: HostRuntime) {
    let alloc = rt.alloc();
    assert!(rt; served(alloc, 0, b"mode rings\nnode 1\nbegin\n") == Some(0));
    assert!(rt; fault(alloc, 0, b"mode fixed\nnode 1\nbegin\n") == Some((1, LineWhy::OutOfPlace)));
    assert!(rt; fault(alloc, 0, b"mode asked\nnode 1\nbegin\n") == Some((1, LineWhy::OutOfPlace)));
    assert!(rt;
        asking_fault(alloc, b"mode asked\nnode 1\nbegin\n") == Some((1, LineWhy::OutOfPlace))
    );
}

#[test]
fn lines(rt: HostRuntime) {
    let alloc = rt.alloc();
    let calls = b"node 1\nbegin\nclient 1 a A\njoin a db 1\nsubscribe a db\n";
    assert!(rt; served(alloc, 0, calls) == Some(3));
    assert!(rt; fault(alloc, 0, b"node 1\nbegin\nflow\n") == Some((3, LineWhy::OutOfPlace)));
    assert!(rt; asked(alloc, b"node 1\nbegin\nflow\nclient 1 a A\ngoodbye a\n") == Some(2));
}

#[test]
fn calls_of_clients(rt: HostRuntime) {
    let alloc = rt.alloc();
    let own = b"node 1\nbegin\nclient 1 a A\nleave a db 1\n";
    let other = b"node 1\nnode 2\nbegin\nclient 2 a A\nleave a db 1\n";
    assert!(rt; fault(alloc, 0, own) == Some((4, LineWhy::OutOfPlace)));
    assert!(rt; served(alloc, 0, other) == Some(2));
    assert!(rt;
        fault(alloc, 0, b"node 1\nbegin\njoin a db 1\n") == Some((3, LineWhy::UnknownClient))
    );
}

#[test]
fn objects(rt: HostRuntime) {
    let alloc = rt.alloc();
    let two = b"node 1\nbegin\nclient 1 a boxed\nclient 1 b boxed\n";
    let other = b"node 1\nnode 2\nbegin\nclient 2 a boxed\njoin a db 1\n";
    assert!(rt; fault(alloc, 1, two) == Some((4, LineWhy::BoxedClient)));
    assert!(rt; served(alloc, 2, two) == Some(2));
    assert!(rt; served(alloc, 0, other) == Some(2));
    assert!(rt; asked(alloc, two) == Some(2));
}

fn script(rt: &impl Abort, alloc: Global, text: &[u8]) -> Script {
    read_script(alloc, text).ok().expect(rt, "a script")
}

/// The node and the instance of the call of this index, which is a join.
fn joined(script: &Script, index: usize) -> Option<(u8, u16)> {
    match script.call(index)? {
        (node, CallLine::Join { instance, .. }) => Some((node, *instance)),
        _ => None,
    }
}

/// Is this the line of the call of this index?
fn is_line(script: &Script, index: usize, text: &[u8]) -> bool {
    match script.line(index) {
        None => false,
        Some(line) => line == text,
    }
}

#[test]
fn calls_by_place(rt: HostRuntime) {
    let text =
        b"mode asked\nnode 1\nnode 2\nbegin\nstart 2\nclient 2 a A\n# one\nflow\njoin a db 7\nflow\n";
    let script = script(&rt, rt.alloc(), text);
    assert!(rt; joined(&script, 1) == Some((2, 7)));
    assert!(rt; script.call(2).is_none());
    assert!(rt; is_line(&script, 1, b"join a db 7"));
    assert!(rt; script.line(2).is_none());
}
