//! What no clause says: that each call that takes memory succeeds where there is memory, with its answer.
use super::*;

const QUESTION: [u8; 8] = [0x52, 0x49, 1, 2, 0, 0, 0, 7];

const REPLY: [u8; 10] = [0x52, 0x49, 2, 2, 0, 0, 0, 7, b'a', b'\n'];

const ASKED: SelfQuestion = SelfQuestion {
    what: SelfWhat::Hagsd,
    question: 7,
};

#[test]
fn a_question_is_written_and_read(rt: HostRuntime) {
    let mut out = Vec::new(rt.alloc());
    put_question(&mut out, ASKED).expect(&rt, "memory");
    assert!(rt; out.as_slice() == QUESTION.as_slice());
    assert!(rt; read_question(out.as_slice()) == Some(ASKED));
}

#[test]
fn a_reply_is_written_and_read(rt: HostRuntime) {
    let mut out = Vec::new(rt.alloc());
    put_reply_head(&mut out, ASKED).expect(&rt, "memory");
    out.extend_from_slice(b"a\n").expect(&rt, "memory");
    assert!(rt; out.as_slice() == REPLY.as_slice());
    match text_in(ASKED, out.as_slice()) {
        Some(text) => {
            assert!(rt; text == b"a\n".as_slice());
        }
        None => {
            assert!(rt; false);
        }
    }
}
