//! Messages in pieces: worked rows, and that each call can succeed.
ghost use Rattle.std.specs.Prelude.{◌≡◌, ◌≤◌, length, vec_len, IfOk};

use piece_link::{Joiner, LONGEST_MESSAGE, PIECE_SIZE, PieceHead, cut, put_piece, read_piece};
use rsct_packet::NoMemory;
use std::alloc::Global;
use std::test::Fail;

fn message_of(alloc: Global, len: usize, byte: u8) -> Result<Vec<u8>, NoMemory>
    ensures { IfOk result (λ v. vec_len v ≡ len) }
{
    Ok(vec![in alloc; byte; len]?)
}

/// The datagrams of a message of incarnation 1.
fn pieces_of(
    alloc: Global,
    sender: u8,
    number: u64,
    message: &[u8],
) -> Result<Vec<Vec<u8>>, NoMemory>
    requires { sender ≤ 32 }
{
    let mut pieces = Vec::new(alloc);
    cut(alloc, &mut pieces, sender, 1, number, message)?;
    Ok(pieces)
}

/// One datagram with this head and so many bytes of data.
fn forged(alloc: Global, head: &PieceHead, len: usize) -> Result<Vec<u8>, NoMemory> {
    let text = message_of(alloc, len, 9)?;
    let mut out = Vec::new(alloc);
    put_piece(&mut out, head, text.as_slice())?;
    Ok(out)
}

#[test]
fn cuts_1177_bytes_in_two_and_joins_them(rt: HostRuntime) -> Result<(), Fail> {
    let alloc = rt.alloc();
    let message = message_of(alloc, 1177, 7)?;
    let pieces = pieces_of(alloc, 1, 1, message.as_slice())?;
    assert!(rt; pieces.len() == 2);
    let (first, last) = (pieces[0].as_slice(), pieces[1].as_slice());
    assert!(rt; first.len() == 1200 && last.len() == 25);
    assert!(rt;
        first.starts_with(b"RP\x01\0\0\0\0\x01\0\0\0\0\0\0\0\x01\0\0\0\0\0\0\0\x02\x07".as_slice())
    );
    assert!(rt; last == b"RP\x01\0\0\0\0\x01\0\0\0\0\0\0\0\x01\0\0\0\x01\0\0\0\x02\x07".as_slice());
    for (one, other) in [(first, last), (last, first)] {
        let mut joiner = Joiner::new();
        assert!(rt; joiner.take(alloc, one)? == None);
        assert!(rt; joiner.take(alloc, one)? == None);
        assert!(rt;
            joiner.take(alloc, other)?.as_ref().map(|m| m.as_slice()) == Some(message.as_slice())
        );
        assert!(rt; joiner.take(alloc, other)? == None, "answered already");
        assert!(rt; joiner.take(alloc, one)? == None, "answered already");
    }
    Ok(())
}

#[test]
fn joins_33_senders_at_once(rt: HostRuntime) -> Result<(), Fail> {
    let alloc = rt.alloc();
    let mut joiner = Joiner::new();
    for turn in 0..3usize {
        for sender in 0..33u8 {
            let message = message_of(alloc, 3 * PIECE_SIZE, sender)?;
            let pieces = pieces_of(alloc, sender, 1, message.as_slice())?;
            assert!(rt; pieces.len() == 3);
            let answer = joiner.take(alloc, pieces[turn].as_slice())?;
            if turn < 2 {
                assert!(rt; answer == None, "sender {sender}");
            } else {
                assert!(rt;
                    answer.as_ref().map(|m| m.as_slice()) == Some(message.as_slice()),
                    "sender {sender}"
                );
            }
        }
    }
    Ok(())
}

/// Does the joiner answer nothing at each front of a piece, the piece itself left out?
fn drops_fronts(joiner: &mut Joiner, alloc: Global, piece: &[u8]) -> Result<bool, NoMemory> {
    for len in 0..piece.len() {
        if joiner
            .take(alloc, piece.get(..len).unwrap_or(b""))?
            .is_some()
        {
            return Ok(false);
        }
    }
    Ok(true)
}

/// Does the joiner answer nothing at the piece of this head and text where it has another count than 2, each up to some
/// that no message has, and the greatest?
fn drops_counts(
    joiner: &mut Joiner,
    alloc: Global,
    head: &PieceHead,
    text: &[u8],
) -> Result<bool, NoMemory> {
    let mut piece = Vec::new(alloc);
    for i in 0..=60_010u32 {
        let count = match i {
            2 => u32::MAX,
            other => other,
        };
        piece.clear();
        put_piece(&mut piece, &PieceHead { count, ..*head }, text)?;
        if joiner.take(alloc, piece.as_slice())?.is_some() {
            return Ok(false);
        }
    }
    Ok(true)
}

/// The first of two pieces is kept. 1,200 and 25 fronts, and 60,011 counts of each piece.
#[test]
fn a_lie_changes_nothing(rt: HostRuntime) -> Result<(), Fail> {
    let alloc = rt.alloc();
    let message = message_of(alloc, 1177, 7)?;
    let pieces = pieces_of(alloc, 1, 1, message.as_slice())?;
    assert!(rt; pieces.len() == 2);
    let mut joiner = Joiner::new();
    assert!(rt; joiner.take(alloc, pieces[0].as_slice())? == None);
    for piece in &pieces {
        assert!(rt; drops_fronts(&mut joiner, alloc, piece.as_slice())?);
        let (head, text) = read_piece(piece.as_slice()).ok_or("no piece")?;
        assert!(rt; drops_counts(&mut joiner, alloc, &head, text)?);
    }
    let kept = PieceHead {
        sender: 1,
        incarnation: 1,
        number: 1,
        index: 1,
        count: 2,
    };
    let older = forged(
        alloc,
        &PieceHead {
            incarnation: 0,
            number: 9,
            ..kept
        },
        1,
    )?;
    assert!(rt; joiner.take(alloc, older.as_slice())? == None);
    let stranger = forged(alloc, &PieceHead { sender: 33, ..kept }, 1)?;
    assert!(rt; joiner.take(alloc, stranger.as_slice())? == None);
    let answer = joiner.take(alloc, pieces[1].as_slice())?;
    assert!(rt; answer.as_ref().map(|m| m.as_slice()) == Some(message.as_slice()));
    Ok(())
}

#[test]
fn a_newer_message_takes_the_place(rt: HostRuntime) -> Result<(), Fail> {
    let alloc = rt.alloc();
    let old = message_of(alloc, 1177, 1)?;
    let new = message_of(alloc, 1178, 2)?;
    let before = pieces_of(alloc, 4, 7, old.as_slice())?;
    let after = pieces_of(alloc, 4, 8, new.as_slice())?;
    assert!(rt; before.len() == 2 && after.len() == 2);
    let mut joiner = Joiner::new();
    assert!(rt; joiner.take(alloc, before[0].as_slice())? == None);
    assert!(rt; joiner.take(alloc, after[1].as_slice())? == None);
    assert!(rt;
        joiner.take(alloc, before[1].as_slice())? == None,
        "its place was taken"
    );
    let answer = joiner.take(alloc, after[0].as_slice())?;
    assert!(rt; answer.as_ref().map(|m| m.as_slice()) == Some(new.as_slice()));
    Ok(())
}

#[test]
fn a_status_client_is_answered_each_time(rt: HostRuntime) -> Result<(), Fail> {
    let alloc = rt.alloc();
    let mut pieces = Vec::new(alloc);
    assert!(rt; cut(alloc, &mut pieces, 0, 0, 1, b"asked")?);
    assert!(rt; pieces.len() == 1);
    let mut joiner = Joiner::new();
    for turn in 0..2 {
        let answer = joiner.take(alloc, pieces[0].as_slice())?;
        assert!(rt;
            answer.as_ref().map(|m| m.as_slice()) == Some(b"asked".as_slice()),
            "at turn {turn}"
        );
    }
    Ok(())
}

#[test]
fn cuts_no_empty_message_and_none_too_long(rt: HostRuntime) -> Result<(), Fail> {
    let alloc = rt.alloc();
    let mut pieces = Vec::new(alloc);
    assert!(rt; !cut(alloc, &mut pieces, 1, 1, 1, b"")?);
    let longer = message_of(alloc, LONGEST_MESSAGE + 1, 0)?;
    assert!(rt; !cut(alloc, &mut pieces, 1, 1, 1, longer.as_slice())?);
    assert!(rt; pieces.is_empty());
    assert!(rt; cut(alloc, &mut pieces, 1, 1, 1, b"one")?);
    assert!(rt; pieces.len() == 1);
    let (head, text) = read_piece(pieces[0].as_slice()).ok_or("no piece")?;
    assert!(rt; head.index == 0 && head.count == 1);
    assert!(rt; text == b"one".as_slice());
    Ok(())
}
