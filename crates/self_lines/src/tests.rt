//! What no clause says: that each call that takes memory succeeds where there is memory, with its answer. The lines of a
//! daemon that runs stand in `daemon_tests`.
use crate::clients::put_client;
use crate::put_daemon;
use daemon_model::{About, Counts, ReceiveCounts, Version};
use remote_session::Standing;
use rsct_packet::{Member, ProviderId};

const ME: Member = Member { node: 3, inc: 9 };

const ABOUT: About = About {
    version: Version {
        major: 1,
        minor: 20,
        patch: 3,
    },
    settings: 0x0123_4567_89ab_cdef,
};

const COUNTS: Counts = Counts {
    ticks: 2,
    receives: ReceiveCounts {
        turns: 1,
        received: 18_446_744_073_709_551_615,
        strays: 4,
        failed: 6,
    },
    sent: 5,
    keys: 7,
    ended: 8,
};

const LINE: &[u8] =
    b"hagsd 3.9 version=1.20.3 settings=0123456789abcdef turns=1 ticks=2 received=18446744073709551615 strays=4 sent=5 failed=6 keys=7 ended=8\n";

#[test]
fn the_line_of_a_daemon(rt: HostRuntime) {
    let mut out = Vec::new(rt.alloc());
    put_daemon(&mut out, ME, ABOUT, COUNTS).expect(&rt, "memory");
    assert!(rt; out.as_slice() == LINE);
}

#[test]
fn the_line_of_a_client(rt: HostRuntime) {
    let member = ProviderId {
        node: 1,
        inc: 5,
        instance: 7,
        join: 1,
    };
    let standing = Standing {
        silent: 2,
        unread: 3,
    };
    let mut out = Vec::new(rt.alloc());
    put_client(&mut out, b"a", Some(7), Some(standing), &[member]).expect(&rt, "memory");
    put_client(&mut out, b"b", None, None, &[]).expect(&rt, "memory");
    let text =
        b"hagscl a key=7 silent=2 unread=3 members=1.5.7.1\nhagscl b key=- silent=- unread=- members=-\n";
    assert!(rt; out.as_slice() == text.as_slice());
}
