//! Numbers, names, ids, values and lists.
use rsct_packet::{Mask, Member, ProtoId, ProviderId, RingId, ViewId};
use std::process::Abort;
use std::test::Fail;
use value_words::{
    WordFault, client_word, group_word, hex_word, put_count_word, put_counted, put_escaped,
    put_labelled, put_mask_word, put_members, put_members_word, put_number, put_number_word,
    put_proto, put_proto_word, put_provider, put_provider_word, put_providers, put_providers_word,
    put_ring_word, put_text, put_value, put_view, put_view_word, put_word, source_word, text_word,
};

const VIEW: ViewId = ViewId {
    number: 3,
    coord: 1,
    inc: 2,
};

const PROTO: ProtoId = ProtoId {
    view: VIEW,
    place: 4,
};

const PROVIDER: ProviderId = ProviderId {
    node: 1,
    inc: 2,
    instance: 7,
    join: 3,
};

#[test]
fn bytes_and_numbers(rt: HostRuntime) -> Result<(), Fail> {
    let mut out = Vec::new(rt.alloc());
    put_text(&mut out, b"a ")?;
    put_word(&mut out, b"b")?;
    put_labelled(&mut out, b"c=", b"d ")?;
    put_counted(&mut out, b"e=", 7)?;
    put_text(&mut out, b" ")?;
    put_number_word(&mut out, u32::MAX)?;
    put_count_word(&mut out, 0)?;
    put_number(&mut out, 10)?;
    assert_eq!(rt; out.as_slice(), b"a b c=d e=7 4294967295 0 10".as_slice());
    Ok(())
}

#[test]
fn ids(rt: HostRuntime) -> Result<(), Fail> {
    let mut out = Vec::new(rt.alloc());
    put_view_word(&mut out, VIEW)?;
    put_view(&mut out, VIEW)?;
    put_text(&mut out, b" ")?;
    put_provider_word(&mut out, PROVIDER)?;
    put_provider(&mut out, PROVIDER)?;
    put_text(&mut out, b" ")?;
    put_proto_word(&mut out, PROTO)?;
    put_proto(&mut out, PROTO)?;
    put_text(&mut out, b" ")?;
    let ring = RingId {
        leader: 2,
        inc: 5,
        number: 9,
    };
    put_ring_word(&mut out, ring)?;
    let want = b"3.1.2 3.1.2 1.2.7.3 1.2.7.3 3.1.2/4 3.1.2/4 2.5.9 ";
    assert_eq!(rt; out.as_slice(), want.as_slice());
    Ok(())
}

#[test]
fn lists(rt: HostRuntime) -> Result<(), Fail> {
    let alloc = rt.alloc();
    let members = [Member { node: 1, inc: 2 }, Member { node: 3, inc: 4 }];
    let mut out = Vec::new(alloc);
    put_mask_word(alloc, &mut out, Mask::empty().with(3).with(1))?;
    put_mask_word(alloc, &mut out, Mask::empty())?;
    put_members_word(&mut out, members.as_slice())?;
    put_members(&mut out, &[])?;
    put_text(&mut out, b" ")?;
    put_providers_word(&mut out, [PROVIDER, PROVIDER].as_slice())?;
    put_providers(&mut out, &[])?;
    assert_eq!(rt;
        out.as_slice(),
        b"1,3 - 1.2,3.4 - 1.2.7.3,1.2.7.3 -".as_slice()
    );
    Ok(())
}

#[test]
fn values(rt: HostRuntime) -> Result<(), Fail> {
    let alloc = rt.alloc();
    let mut out = Vec::new(alloc);
    put_value(&mut out, b"a b%\xff")?;
    put_text(&mut out, b" ")?;
    put_escaped(&mut out, b"~,\n")?;
    assert_eq!(rt; out.as_slice(), b"=a%20b%25%FF ~,%0A".as_slice());
    let text = text_word(alloc, b"%41~%0a")?.expect(&rt, "a text");
    assert_eq!(rt; text.as_slice(), b"A~\n".as_slice());
    let empty = text_word(alloc, b"~")?.expect(&rt, "the empty text");
    assert!(rt; empty.is_empty());
    assert!(rt; text_word(alloc, b"a%4")?.is_none());
    assert!(rt; text_word(alloc, b"")?.is_none());
    Ok(())
}

#[test]
fn names_and_hex_digits(rt: HostRuntime) {
    let alloc = rt.alloc();
    let client = client_word(alloc, b"a.b-c_1").expect(&rt, "a client");
    assert_eq!(rt; client.as_slice(), b"a.b-c_1".as_slice());
    assert!(rt; client_word(alloc, b"12345678901234567").is_err());
    let group = group_word(alloc, b"a_name_of_33_bytes_is_still_taken").expect(&rt, "a group");
    assert_eq!(rt; group.len(), 33);
    let source = source_word(alloc, b"db").expect(&rt, "a source");
    assert_eq!(rt; source.bytes(), b"db".as_slice());
    assert!(rt; source_word(alloc, b"a_name_of_33_bytes_is_not_taken__").is_err());
    let bytes = hex_word(alloc, b"0aFf").expect(&rt, "bytes");
    assert_eq!(rt; bytes.as_slice(), b"\x0a\xff".as_slice());
    assert!(rt; hex_word(alloc, b"0aF").err() == Some(WordFault::BadWord));
}
