//! Lines of a transcript, read and written.
use line_reader::read_line;
use std::test::Fail;

#[test]
fn each_kind(rt: HostRuntime) -> Result<(), Fail> {
    let alloc = rt.alloc();
    let texts = [
        b"up 1 0".as_slice(),
        b"down 32",
        b"ring 1 4 1.0.7 1,2 2",
        b"in 1 2.1.1 1.1,2.1",
        b"base 2 5.1.1 db 4.2.1 1 1.1.1.1,2.1.2.1 =up 1.1.1.1 4.2.1/0:1",
        b"put 1 2.1.1 db 0 once join 1.1.1.1 phases=n limit=5 src=2",
        b"put 1 2.1.1 db 0 begin leave 1.1.1.1/2",
        b"put 1 2.1.1 db 0 once fail 1.1.1.1:died,1.1.1.1:cast",
        b"put 1 2.1.1 db 0 once expel 1.1.1.1/2 1.1.1.2",
        b"put 1 2.1.1 db 0 once state 1.1.1.1/2 =a%20b",
        b"put 1 2.1.1 db 0 once message 1.1.1.1/2 =",
        b"put 1 2.1.1 db 0 once attrs 1.1.1.1/2 default=reject",
        b"put 1 2.1.1 db 0 once reflect 2.1.1/7 =x",
        b"put 1 2.1.1 db 1 phase 2.1.1/0 1 1.1.1.1=C -",
        b"put 1 2.1.1 db 1 approve 2.1.1/0 201 1.1.1.1=A,1.1.1.1=LR =v",
        b"put 1 2.1.1 db 1 reject 2.1.1/0 1 -",
        b"put 1 2.1.1 db 1 late 2.1.1/0 1 1.1.1.1",
        b"heard 1.1.7.1 1.1.1 db 0 once-join 1.1.7.1 =",
        b"cast 1.1.7.1 1.1.1/0 1 C=x",
        b"asked 1.1.7.1 1 db join",
        b"told 1.1.7.1 2 LIST_FULL 7/8",
        b"noted 1.a 1.1.1 db - 1.1.7.1 =x",
        b"noted 1.a.b 1.1.1 HostMembership 3 1.1 =",
        b"refused 1.c65 SESSIONS_FULL 64",
        b"show 1 hats 1 1.1.1 members=1,2 neighbour=2",
        b"show 1 hagsns 1.1.1 coord=1 members=1.1 frozen=no",
        b"show 1 hagsgr db leader=? len=3 members=- value=%20",
        b"show 1 hagsvote db 1.1.1/0 phase=1 kind=join waiting=?",
    ];
    for text in texts {
        let line = read_line(alloc, text)?.expect(&rt, "a line");
        assert!(rt; line.fits());
        let mut out = Vec::new(alloc);
        line.put(&mut out)?;
        assert_eq!(rt; out.as_slice(), text);
    }
    Ok(())
}

#[test]
fn no_line(rt: HostRuntime) -> Result<(), Fail> {
    let alloc = rt.alloc();
    let texts = [
        b"".as_slice(),
        b"up 1 01",
        b"up 1 1 ",
        b"cast 1.1.7.1 1.1.1/0 1 C=%78",
        b"put 1 2.1.1 db 0 once join 1.1.1.1 limit=5 phases=n",
        b"put 1 2.1.1 db 0 once join 1.1.1.1 src=2 phases=n",
        b"put 1 2.1.1 db 0 once join 1.1.1.1,1.1.1.1",
    ];
    for text in texts {
        assert!(rt; read_line(alloc, text)?.is_none());
    }
    Ok(())
}
