use crate::{
    RecordRefused, Records, Replies, make_recording, print_records, print_replies, read_records,
};
use kj_base::{Bytes, NoMemory};
use std::alloc::Global;
use std::test::Fail;

// How many connections are whole, where the octets are no recording.
fn whole_of(alloc: Global, text: &[u8]) -> Result<Option<u32>, NoMemory> {
    match read_records(alloc, text) {
        Ok(_records) => Ok(None),
        Err(RecordRefused::Bad { whole }) => Ok(Some(whole)),
        Err(RecordRefused::NoMemory) => Err(NoMemory),
    }
}

#[test]
fn a_made_recording(rt: HostRuntime) -> Result<(), Fail> {
    let one = make_recording(rt.alloc(), 1, 1, 1)?;
    assert!(&rt;
        one.as_slice()
            == b"kjrec 1\nconn 36\nGET /0/0 HTTP/1.1\r\nHost: kj.test\r\n\r\n\n".as_slice()
    );
    let empty = make_recording(rt.alloc(), 8, 1, 1)?;
    assert!(&rt;
        empty.as_slice()
            == b"kjrec 1\nconn 70\nPOST /0/0 HTTP/1.1\r\nHost: kj.test\r\nTransfer-Encoding: chunked\r\n\r\n0\r\n\r\n\n".as_slice()
    );
    let all_kinds = make_recording(rt.alloc(), 5, 2, 2)?;
    let text =
        b"kjrec 1\nconn 157\nPOST /0/0 HTTP/1.1\r\nHost: kj.test\r\nTransfer-Encoding: chunked\r\n\r\nd\r\nctzjdzuepqyrl\r\n0\r\n\r\nPOST /0/1 HTTP/1.1\r\nHost: kj.test\r\nContent-Length: 12\r\n\r\nrucegyofofcl\nconn 73\nHEAD /1/0 HTTP/1.1\r\nHost: kj.test\r\n\r\nGET /1/1 HTTP/1.1\r\nHost: kj.test\r\n\r\n\n";
    assert!(&rt; all_kinds.as_slice() == text.as_slice());
    Ok(())
}

#[test]
fn at_most_4096_connections(rt: HostRuntime) -> Result<(), Fail> {
    let alloc = rt.alloc();
    let mut text = Bytes::from_slice(alloc, b"kjrec 1\n")?;
    for _ in 0..4096 {
        text.extend(b"conn 0\n\n")?;
    }
    let most = read_records(alloc, text.as_slice())?;
    assert!(&rt; most.len() == 4096);
    text.extend(b"conn 0\n\n")?;
    assert!(&rt; whole_of(alloc, text.as_slice())? == Some(4096));
    Ok(())
}

#[test]
fn texts_that_are_no_recording(rt: HostRuntime) -> Result<(), Fail> {
    let cases: [(&[u8], u32); 14] = [
        (b"", 0),
        (b"kjrec 1", 0),
        (b"kjrep 1\n", 0),
        (b"kjrec 1\nconn 36\nGET", 0),
        (b"kjrec 1\nconn 0\n\ncon", 1),
        (b"kjrec 1\nconn 0\n\nconn 1\na\n.", 2),
        (b"kjrec 1\nconn 01\na\n", 0),
        (b"kjrec 1\nconn +1\na\n", 0),
        (b"kjrec 1\nconn \n\n", 0),
        (b"kjrec 1\nconn 1\n\n", 0),
        (b"kjrec 1\nconn 1\r\na\n", 0),
        (b"kjrec 1\nconn 18446744073709551617\na\n", 0),
        (b"kjrec 1\n\n", 0),
        (b"kjrec 1\nconn 1\nab", 0),
    ];
    for (text, whole) in cases {
        assert!(&rt; whole_of(rt.alloc(), text)? == Some(whole));
    }
    Ok(())
}

#[test]
fn recordings_are_read_as_they_were_printed(rt: HostRuntime) -> Result<(), Fail> {
    let alloc = rt.alloc();
    let none = read_records(alloc, b"kjrec 1\n")?;
    assert!(&rt; none.len() == 0);
    let text = b"kjrec 1\nconn 0\n\nconn 1\n\n\nconn 9\nconn 1\n\r\xff\n";
    let records = read_records(alloc, text)?;
    assert!(&rt; records.len() == 3);
    let printed = print_records(alloc, &records)?;
    assert!(&rt; printed.as_slice() == text.as_slice());
    let mut one = Records::new(alloc);
    one.push(Bytes::from_slice(alloc, b"\r\n")?)?;
    let printed = print_records(alloc, &one)?;
    assert!(&rt; printed.as_slice() == b"kjrec 1\nconn 2\n\r\n\n".as_slice());
    Ok(())
}

#[test]
fn replies_are_printed_in_order(rt: HostRuntime) -> Result<(), Fail> {
    let alloc = rt.alloc();
    let mut replies = Replies::new(alloc);
    let none = print_replies(alloc, &replies)?;
    assert!(&rt; none.as_slice() == b"kjrep 1\n".as_slice());
    for octets in [b"b".as_slice(), b"".as_slice(), b"a\n".as_slice()] {
        replies.push(Bytes::from_slice(alloc, octets)?)?;
    }
    assert!(&rt; replies.len() == 3 && replies.as_slice().len() == 3);
    let written = print_replies(alloc, &replies)?;
    assert!(&rt; written.as_slice() == b"kjrep 1\nconn 1\nb\nconn 0\n\nconn 2\na\n\n".as_slice());
    let again = Replies::from_vec(replies.into_vec());
    let once_more = print_replies(alloc, &again)?;
    assert!(&rt; once_more.as_slice() == written.as_slice());
    Ok(())
}
