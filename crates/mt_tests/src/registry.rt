//! Registry files that are refused, each for its first fault.

use mt_base::{List, NoMemory, Registry, Value};
use mt_registry::{BadLine, RegistryCause, RegistryError, read_registry};
use std::alloc::Global;
use std::process::Abort;
use std::test::Fail;

#[test]
fn refuses_lines_of_bad_form(rt: HostRuntime) -> Result<(), Fail> {
    let cases: [(&[u8], RegistryError); 12] = [
        (b"", RegistryError::NoAttribute),
        (b"# none\nSTRUCTURE s\n", RegistryError::NoAttribute),
        (b"}", bad(1, RegistryCause::Syntax)),
        (b"ATTRIBUTE w\nX\n", bad(2, RegistryCause::Syntax)),
        (b"ATTRIBUTE w\nX {\n}\n", bad(2, RegistryCause::Syntax)),
        (b"ATTRIBUTE w\n\nX \xff\n", bad(3, RegistryCause::Syntax)),
        (b"ATTRIBUTE \"\"\n", bad(1, RegistryCause::Syntax)),
        (
            b"X y {\nX y {\nX y {\n}\n}\n}\nATTRIBUTE w\n",
            bad(3, RegistryCause::Syntax),
        ),
        (
            b"ATTRIBUTE w\nSTRUCTURE s {\nSTRUCTURE t\n}\n",
            bad(3, RegistryCause::Syntax),
        ),
        (
            b"ATTRIBUTE w\nSTRUCTURE s {\n# end\n",
            bad(3, RegistryCause::Syntax),
        ),
        (
            b"ATTRIBUTE m {\nDYNAMIC fold\nFROMATTR v\n}\n}\nATTRIBUTE v\n",
            bad(5, RegistryCause::Syntax),
        ),
        (
            b"ATTRIBUTE w\n}\nATTRIBUTE w\n",
            bad(2, RegistryCause::Syntax),
        ),
    ];
    assert_refused(&rt, rt.alloc(), &cases)
}

#[test]
fn refuses_what_is_stated_twice_or_too_often(rt: HostRuntime) -> Result<(), Fail> {
    let cases: [(&[u8], RegistryError); 5] = [
        (
            b"ATTRIBUTE w\n# again\nATTRIBUTE w\n",
            bad(3, RegistryCause::Twice),
        ),
        (
            b"ATTRIBUTE w\nWSATTR w\nWSATTR v\n",
            bad(3, RegistryCause::Twice),
        ),
        (
            b"STRUCTURE s {\nATTRIBUTE a\nATTRIBUTE a\n}\n",
            bad(3, RegistryCause::Twice),
        ),
        (
            b"ATTRIBUTE w\nATTRIBUTE m {\nFROMATTR w\nFROMATTR v\n}\n",
            bad(4, RegistryCause::Twice),
        ),
        (
            b"ATTRIBUTE a\nATTRIBUTE b\nATTRIBUTE c\nATTRIBUTE d\nATTRIBUTE e\nATTRIBUTE f\nATTRIBUTE g\nATTRIBUTE h\nATTRIBUTE i\nATTRIBUTE j\nATTRIBUTE k\nATTRIBUTE l\nATTRIBUTE m\nATTRIBUTE n\nATTRIBUTE o\nATTRIBUTE p\nATTRIBUTE q\n",
            bad(17, RegistryCause::TooMany),
        ),
    ];
    assert_refused(&rt, rt.alloc(), &cases)
}

#[test]
fn refuses_unknown_mappers_and_bases(rt: HostRuntime) -> Result<(), Fail> {
    let cases: [(&[u8], RegistryError); 9] = [
        (
            b"ATTRIBUTE w\nATTRIBUTE m {\nDYNAMIC nope\nFROMATTR w\n}\n",
            bad(3, RegistryCause::UnknownMapper),
        ),
        (
            b"ATTRIBUTE w\nATTRIBUTE m {\nDYNAMIC nope\n}\n",
            bad(3, RegistryCause::UnknownMapper),
        ),
        (
            b"ATTRIBUTE w\nATTRIBUTE m {\nDYNAMIC fold\n}\n",
            bad(3, RegistryCause::UnknownBase),
        ),
        (
            b"ATTRIBUTE m {\nFROMATTR m\nDYNAMIC fold\n}\n",
            bad(2, RegistryCause::UnknownBase),
        ),
        (
            b"ATTRIBUTE w\nWSATTR v\n",
            bad(2, RegistryCause::UnknownBase),
        ),
        (
            b"ATTRIBUTE m {\nDYNAMIC fold\nFROMATTR v\n}\n}\n",
            bad(3, RegistryCause::UnknownBase),
        ),
        (
            b"ATTRIBUTE m {\nDYNAMIC fold\nFROMATTR v\n}\nX \xff {\nATTRIBUTE v\n}\n",
            bad(3, RegistryCause::UnknownBase),
        ),
        (
            b"ATTRIBUTE m {\nDYNAMIC fold\nFROMATTR v\n}\nATTRIBUTE v {\n",
            bad(3, RegistryCause::UnknownBase),
        ),
        (
            b"ATTRIBUTE w\nATTRIBUTE m {\nFROMATTR v\nDYNAMIC \xff\n}\n",
            bad(3, RegistryCause::UnknownBase),
        ),
    ];
    assert_refused(&rt, rt.alloc(), &cases)
}

fn bad(line: usize, cause: RegistryCause) -> RegistryError {
    RegistryError::Bad(BadLine { line, cause })
}

/// Each of the files is refused, for the cause beside it.
fn assert_refused(
    rt: &impl Abort,
    alloc: Global,
    cases: &[(&[u8], RegistryError)],
) -> Result<(), Fail> {
    let mappers = mappers_at_hand(alloc)?;
    for (file, want) in cases {
        let read = read_registry(alloc, file, &mappers);
        assert_eq!(rt; error_in(&read), Some(*want), "at {file:?}");
    }
    Ok(())
}

fn mappers_at_hand(alloc: Global) -> Result<List<Value>, NoMemory> {
    let mut mappers = List::new(alloc);
    mappers.push(Value::new(alloc, "fold")?)?;
    Ok(mappers)
}

fn error_in(read: &Result<Registry, RegistryError>) -> Option<RegistryError> {
    match read {
        Ok(_) => None,
        Err(error) => Some(*error),
    }
}
