// Puts of a sink that goes step by step.

use crate::{PutFault, Sink, StepSink};
use std::test::Fail;

const TEXT: &[u8] = b"body 13506199853387640\n";

// Puts what is left of a text, again and again: how many bytes were taken, and the fault that ended it.
fn put_on(sink: &mut StepSink, text: &[u8]) -> (usize, Option<PutFault>) {
    let mut rest = text;
    for _ in 0..text.len() {
        match sink.put(rest) {
            Ok(count) => rest = &rest[count..],
            Err(fault) => return (text.len().saturating_sub(rest.len()), Some(fault)),
        }
    }
    (text.len().saturating_sub(rest.len()), None)
}

#[test]
fn each_put_takes_its_number(rt: HostRuntime) -> Result<(), Fail> {
    let takes = vec![in rt.alloc(); 3, 1, 7, 0]?;
    let mut sink = StepSink::new(rt.alloc(), 4096, takes)?;
    assert_eq!(rt; sink.put(TEXT), Ok(3));
    assert_eq!(rt; sink.put(&TEXT[3..]), Ok(1));
    assert_eq!(rt; sink.put(&TEXT[4..]), Ok(7));
    assert_eq!(rt; sink.put(&TEXT[11..]), Err(PutFault::Failed));
    assert_eq!(rt; sink.put(&TEXT[11..]), Err(PutFault::Failed));
    assert_eq!(rt; sink.taken(), &TEXT[..11]);

    let takes = vec![in rt.alloc(); 3, 1, 7, 0]?;
    let mut sink = StepSink::new(rt.alloc(), 4096, takes)?;
    assert_eq!(rt; put_on(&mut sink, TEXT), (11, Some(PutFault::Failed)));
    assert_eq!(rt; sink.taken(), &TEXT[..11]);
    Ok(())
}

#[test]
fn the_last_number_serves_all_later_puts(rt: HostRuntime) -> Result<(), Fail> {
    let mut sink = StepSink::new(rt.alloc(), 4096, vec![in rt.alloc(); 1]?)?;
    for at in 0..TEXT.len() {
        assert_eq!(rt; sink.put(&TEXT[at..]), Ok(1));
    }
    assert_eq!(rt; sink.taken(), TEXT);

    let mut sink = StepSink::new(rt.alloc(), 4096, vec![in rt.alloc(); 2, 5]?)?;
    assert_eq!(rt; put_on(&mut sink, TEXT), (TEXT.len(), None));
    assert_eq!(rt; sink.taken(), TEXT);
    assert_eq!(rt; sink.put(b"abcdef"), Ok(5));
    Ok(())
}

#[test]
fn no_put_takes_more_than_there_is_room_for(rt: HostRuntime) -> Result<(), Fail> {
    let mut sink = StepSink::new(rt.alloc(), 5, vec![in rt.alloc(); 3]?)?;
    assert_eq!(rt; sink.put(TEXT), Ok(3));
    assert_eq!(rt; sink.put(&TEXT[3..]), Ok(2));
    assert_eq!(rt; sink.put(&TEXT[5..]), Err(PutFault::Failed));
    assert_eq!(rt; sink.put(b""), Ok(0));
    assert_eq!(rt; sink.taken(), &TEXT[..5]);

    let mut sink = StepSink::new(rt.alloc(), 0, vec![in rt.alloc(); 3]?)?;
    assert_eq!(rt; sink.put(b""), Ok(0));
    assert_eq!(rt; sink.put(b"a"), Err(PutFault::Failed));
    Ok(())
}

#[test]
fn a_put_of_nothing_has_its_number_too(rt: HostRuntime) -> Result<(), Fail> {
    let mut sink = StepSink::new(rt.alloc(), 9, vec![in rt.alloc(); 0, 2, 4]?)?;
    assert_eq!(rt; sink.put(b""), Ok(0));
    assert_eq!(rt; sink.put(b"abc"), Ok(2));
    assert_eq!(rt; sink.put(b"c"), Ok(1));
    assert_eq!(rt; sink.taken(), b"abc".as_slice());

    let mut sink = StepSink::new(rt.alloc(), 9, vec![in rt.alloc(); 0, 2, 4]?)?;
    assert_eq!(rt; sink.put(b"abc"), Err(PutFault::Failed));
    assert_eq!(rt; sink.put(b"abc"), Ok(2));
    assert_eq!(rt; sink.taken(), b"ab".as_slice());
    Ok(())
}
