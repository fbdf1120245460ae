//! Files of a folder, through the trait, and a source and a sink over memory.

use super::{FolderShelf, ReaderSource, WriterSink};
use mt_base::List;
use mt_outside::{Loaded, Shelf, ShelfError, Sink, Source};
use std::alloc::Global;
use std::fs;
use std::test::Fail;

/// A name that no other file has.
const NAME: &str = "shelf.test";

/// What a load answers: the file, `-` where there is none, `+` where it is too long, `!` for a failure.
fn loaded<F: Shelf>(alloc: Global, shelf: &mut F, limit: u32) -> Result<Vec<u8>, Fail> {
    let mut out = List::from_vec(b"old".to_vec(alloc)?);
    Ok(match shelf.load(alloc, NAME, limit, &mut out) {
        Ok(Loaded::Whole) => out.into_vec(),
        Ok(Loaded::Absent) => b"-".to_vec(alloc)?,
        Ok(Loaded::TooLong) => b"+".to_vec(alloc)?,
        Err(ShelfError::Failed) => b"!".to_vec(alloc)?,
        Err(ShelfError::NoMemory) => b"?".to_vec(alloc)?,
    })
}

#[test]
fn files_of_a_folder(rt: HostRuntime) -> Result<(), Fail> {
    let alloc = rt.alloc();
    let mut shelf = FolderShelf::new(&rt);
    let mut answers = loaded(alloc, &mut shelf, 4)?;
    assert!(rt; shelf.store(NAME, b"longer").is_ok());
    assert!(rt; shelf.store(NAME, b"text").is_ok());
    for limit in [5, 4, 3, 0] {
        answers.extend_from_slice(&loaded(alloc, &mut shelf, limit)?)?;
    }
    fs::remove_file(&rt, NAME)?;
    fs::create_dir(&rt, NAME)?;
    answers.extend_from_slice(&loaded(alloc, &mut shelf, 4)?)?;
    let stored = shelf.store(NAME, b"text");
    fs::remove_dir(&rt, NAME)?;
    assert!(rt; stored == Err(ShelfError::Failed));
    assert_eq!(rt; answers.as_slice(), "-texttext++!".as_bytes());
    assert_eq!(rt; shelf.failed.len(), 2);
    Ok(())
}

#[test]
fn readers_and_writers(rt: HostRuntime) -> Result<(), Fail> {
    let alloc = rt.alloc();
    let mut source = ReaderSource::new(&b"abc"[..]);
    let mut buf = [0; 2];
    let mut sink = WriterSink::new(Vec::new(alloc));
    for _ in 0..3 {
        let n = source.read(&mut buf).unwrap_or(0);
        assert!(rt; sink.write(&buf[..n]).is_ok());
    }
    assert_eq!(rt; sink.writer.as_slice(), "abc".as_bytes());
    Ok(())
}
