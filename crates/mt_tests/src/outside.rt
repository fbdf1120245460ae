//! Which calls of sources and sinks in memory fail, called through the traits.

use mt_base::List;
use mt_outside::{Failed, MemorySink, MemorySource, Sink, SinkError, Source};
use std::alloc::Global;
use std::test::Fail;

/// What four reads of two bytes give, each followed by a comma; `!` stands for a failure.
fn four_reads<S: Source>(alloc: Global, source: &mut S) -> Result<Vec<u8>, Fail> {
    let mut answers = Vec::new(alloc);
    for _ in 0..4 {
        let mut buf = [0; 2];
        match source.read(&mut buf) {
            Ok(n) => answers.extend_from_slice(&buf[..n])?,
            Err(Failed) => answers.push(b'!')?,
        }
        answers.push(b',')?;
    }
    Ok(answers)
}

/// What four writes answer, in the same form.
fn four_writes<K: Sink>(alloc: Global, sink: &mut K) -> Result<Vec<u8>, Fail> {
    let mut answers = Vec::new(alloc);
    for piece in ["ab", "c", "", "def"] {
        match sink.write(piece.as_bytes()) {
            Ok(n) => answers.extend_from_slice(&piece.as_bytes()[..n])?,
            Err(SinkError::Failed) => answers.push(b'!')?,
            Err(SinkError::NoMemory) => answers.push(b'?')?,
        }
        answers.push(b',')?;
    }
    Ok(answers)
}

#[test]
fn listed_reads_fail(rt: HostRuntime) -> Result<(), Fail> {
    let alloc = rt.alloc();
    for (fails, want) in [
        (&[][..], "ab,cd,e,,"),
        (&[1][..], "!,ab,cd,e,"),
        (&[2][..], "ab,!,cd,e,"),
        (&[1, 3][..], "!,ab,!,cd,"),
        (&[4, 2, 9][..], "ab,!,cd,!,"),
    ] {
        let bytes = List::from_vec(b"abcde".to_vec(alloc)?);
        let mut source = MemorySource::new(bytes, List::from_vec(fails.to_vec(alloc)?));
        let answers = four_reads(alloc, &mut source)?;
        assert_eq!(rt; answers.as_slice(), want.as_bytes());
    }
    Ok(())
}

#[test]
fn listed_writes_fail(rt: HostRuntime) -> Result<(), Fail> {
    let alloc = rt.alloc();
    for (fails, want, held) in [
        (&[][..], "ab,c,,def,", "abcdef"),
        (&[1][..], "!,c,,def,", "cdef"),
        (&[2][..], "ab,!,,def,", "abdef"),
        (&[1, 3][..], "!,c,!,def,", "cdef"),
        (&[4, 2, 9][..], "ab,!,,!,", "ab"),
    ] {
        let mut sink = MemorySink::new(alloc, List::from_vec(fails.to_vec(alloc)?));
        let answers = four_writes(alloc, &mut sink)?;
        assert_eq!(rt; answers.as_slice(), want.as_bytes());
        assert_eq!(rt; sink.written().as_slice(), held.as_bytes());
    }
    Ok(())
}
