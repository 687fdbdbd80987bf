use calls::header::read_header;
use calls::line::read_call;
use calls::written::Written;
use elements::count::Count;
use elements::element::Element;
use elements::span::Span;
use std::alloc::Global;
use std::test::Fail;
use text::reader::Reader;
use text::unread::Stop;

// The number of a line's refusal, 0 where it is accepted and 1 for want of memory. Numbers, since the rules fix these.
fn answer<E: Element>(heap: Global, line: &[u8]) -> u8 {
    match read_call::<E>(heap, line) {
        Ok(_) => 0,
        Err(Stop::No(why)) => why.number(),
        Err(Stop::Memory(_)) => 1,
    }
}

// The cells that a header names, 1,000 higher, or the number of its refusal.
fn header(line: &[u8]) -> u16 {
    match read_header(line) {
        Ok(h) => 1000 + h.cells,
        Err(why) => why.number() as u16,
    }
}

#[test]
fn ends(rt: HostRuntime) {
    let heap = rt.alloc();
    assert_eq!(rt; answer::<Count>(heap, b""), 20);
    assert_eq!(rt; answer::<Count>(heap, b"q"), 20);
    assert_eq!(rt; answer::<Count>(heap, b"x 7"), 20);
    assert_eq!(rt; answer::<Count>(heap, b"\n"), 22);
    assert_eq!(rt; answer::<Count>(heap, b"q\n"), 0);
    assert_eq!(rt; answer::<Count>(heap, b"Q\n"), 22);
    assert_eq!(rt; answer::<Count>(heap, b"\xff\n"), 22);
}

#[test]
fn numbers(rt: HostRuntime) {
    let heap = rt.alloc();
    assert_eq!(rt; answer::<Count>(heap, b"s 1\n"), 0);
    assert_eq!(rt; answer::<Count>(heap, b"s 0\n"), 0);
    assert_eq!(rt; answer::<Count>(heap, b"s 1 \n"), 23);
    assert_eq!(rt; answer::<Count>(heap, b"s  1\n"), 23);
    assert_eq!(rt; answer::<Count>(heap, b"s1\n"), 23);
    assert_eq!(rt; answer::<Count>(heap, b"s\t1\n"), 23);
    assert_eq!(rt; answer::<Count>(heap, b"s 1\r\n"), 23);
    assert_eq!(rt; answer::<Count>(heap, b"s +1\n"), 23);
    assert_eq!(rt; answer::<Count>(heap, b"s -1\n"), 23);
    assert_eq!(rt; answer::<Count>(heap, b"s 01\n"), 23);
    assert_eq!(rt; answer::<Count>(heap, b"s 00\n"), 23);
    assert_eq!(rt; answer::<Count>(heap, b"count 4\n"), 23);
}

#[test]
fn ranges(rt: HostRuntime) {
    let heap = rt.alloc();
    assert_eq!(rt; answer::<Count>(heap, b"s 65535\n"), 0);
    assert_eq!(rt; answer::<Count>(heap, b"s 65536\n"), 25);
    assert_eq!(rt; answer::<Count>(heap, b"p 1 2 18446744073709551615\n"), 0);
    assert_eq!(rt; answer::<Count>(heap, b"p 1 2 18446744073709551616\n"), 23);
    assert_eq!(rt; answer::<Count>(heap, b"p 1 2 99999999999999999999\n"), 23);
    assert_eq!(rt; answer::<Count>(heap, b"n 0 2 0\n"), 25);
    assert_eq!(rt; answer::<Count>(heap, b"n 0 1 0\n"), 0);
    assert_eq!(rt; answer::<Count>(heap, b"n 0 0 1 0 2 0\n"), 0);
    assert_eq!(rt; answer::<Count>(heap, b"n 0 0 1 0 2 255\n"), 0);
    assert_eq!(rt; answer::<Count>(heap, b"n 0 0 1 0 2 256\n"), 25);
}

#[test]
fn counts(rt: HostRuntime) {
    let heap = rt.alloc();
    assert_eq!(rt; answer::<Count>(heap, b"q 1\n"), 24);
    assert_eq!(rt; answer::<Count>(heap, b"s\n"), 24);
    assert_eq!(rt; answer::<Count>(heap, b"s 1 65536\n"), 24);
    assert_eq!(rt; answer::<Count>(heap, b"n\n"), 24);
    assert_eq!(rt; answer::<Count>(heap, b"n 0 0\n"), 24);
    assert_eq!(rt; answer::<Count>(heap, b"n 0 0 1 0 2\n"), 24);
    assert_eq!(rt;
        answer::<Count>(heap, b"n 0 0 18446744073709551615 0 2 1\n"),
        24
    );
    assert_eq!(rt; answer::<Count>(heap, b"p 1 2\n"), 24);
    assert_eq!(rt; answer::<Count>(heap, b"p 1 2 3 4\n"), 24);
    assert_eq!(rt; answer::<Span>(heap, b"p 1 2 3\n"), 24);
    assert_eq!(rt; answer::<Span>(heap, b"p 1 2 3 4\n"), 0);
}

#[test]
fn many_accesses(rt: HostRuntime) -> Result<(), Fail> {
    let heap = rt.alloc();
    let mut few = b"n 0 0 255".to_vec(heap)?;
    let mut many = b"n 0 0 256".to_vec(heap)?;
    for _ in 0..255u16 {
        few.extend_from_slice(b" 0 1 1")?;
        many.extend_from_slice(b" 0 1 1")?;
    }
    few.extend_from_slice(b"\n")?;
    many.extend_from_slice(b" 0 1 1\n")?;
    assert_eq!(rt; answer::<Count>(heap, &few), 0);
    assert_eq!(rt; answer::<Count>(heap, &many), 25);
    Ok(())
}

#[test]
fn written_value(rt: HostRuntime) -> Result<(), Fail> {
    match read_call::<Span>(rt.alloc(), b"u 3 9 7 5\n") {
        Ok(Written::Update { task, cell, amount }) => {
            assert_eq!(rt; task, 3);
            assert_eq!(rt; cell, 9);
            assert_eq!(rt; amount, Span { first: 7, last: 5 });
            Ok(())
        }
        _ => Err(Fail::new("no update")),
    }
}

#[test]
fn headers(rt: HostRuntime) {
    assert_eq!(rt; header(b"count 1\n"), 1001);
    assert_eq!(rt; header(b"span 256\n"), 1256);
    assert_eq!(rt; header(b"count 0\n"), 21);
    assert_eq!(rt; header(b"count 257\n"), 21);
    assert_eq!(rt; header(b"count 04\n"), 21);
    assert_eq!(rt; header(b"count 4 \n"), 21);
    assert_eq!(rt; header(b"count  4\n"), 21);
    assert_eq!(rt; header(b"Count 4\n"), 21);
    assert_eq!(rt; header(b"span\n"), 21);
    assert_eq!(rt; header(b"\n"), 21);
    assert_eq!(rt; header(b""), 20);
    assert_eq!(rt; header(b"count 4"), 20);
}

#[test]
fn lines(rt: HostRuntime) {
    let reader = Reader::new(b"q\n\ns");
    assert!(rt; reader.has_line());
    let (line, reader) = reader.take_line();
    assert_eq!(rt; line.bytes.len(), 2);
    let (line, reader) = reader.take_line();
    assert_eq!(rt; line.bytes.len(), 1);
    assert!(rt; reader.has_line());
    let (line, reader) = reader.take_line();
    assert_eq!(rt; line.bytes.len(), 1);
    assert!(rt; !reader.has_line());
    let (line, _) = reader.take_line();
    assert_eq!(rt; line.bytes.len(), 0);
}
