//! Words of a call that are read, and words that are refused.

use mt_words::{Options, USUAL_WORKERS, WordsError, read_words};
use std::alloc::Global;

fn said(alloc: Global, words: &[&str]) -> Result<Options, WordsError> {
    let mut texts = Vec::new(alloc);
    for word in words {
        let Ok(text) = String::from_str(alloc, word) else {
            return Err(WordsError::NoMemory);
        };
        let Ok(()) = texts.push(text) else {
            return Err(WordsError::NoMemory);
        };
    }
    read_words(alloc, &texts)
}

#[test]
fn reads_good_words(rt: HostRuntime) {
    let cases: [(&[&str], u32, Option<u32>); 7] = [
        (&[], USUAL_WORKERS, None),
        (&["--workers", "1"], 1, None),
        (&["--workers", "64"], 64, None),
        (&["--workers=4"], 4, None),
        (&["--demo", "50"], USUAL_WORKERS, Some(50)),
        (&["--demo=1", "--workers", "10"], 10, Some(1)),
        (&["--workers", "9", "--"], 9, None),
    ];
    for (words, workers, demo) in cases {
        assert!(rt;
            said(rt.alloc(), words) == Ok(Options { workers, demo }),
            "{words:?}"
        );
    }
}

#[test]
fn refuses_other_words(rt: HostRuntime) {
    let cases: [&[&str]; 37] = [
        &["--workers", "0"],
        &["--workers", "00"],
        &["--workers", "04"],
        &["--workers", "65"],
        &["--workers", "640"],
        &["--workers", "+4"],
        &["--workers", "-4"],
        &["--workers", "4 "],
        &["--workers", " 4"],
        &["--workers", ""],
        &["--workers", "four"],
        &["--workers", "0x4"],
        &["--workers", "4294967300"],
        &["--workers", "٤"],
        &["--demo", "0"],
        &["--demo", "51"],
        &["--demo", "050"],
        &["--demo", "500"],
        &["--demo", "1.0"],
        &["--demo", "--workers"],
        &["word"],
        &[""],
        &["-"],
        &["-h"],
        &["--help"],
        &["--version"],
        &["-V"],
        &["--workers"],
        &["--demo"],
        &["--workers="],
        &["--work=4"],
        &["-w"],
        &["--workers", "4", "--workers", "4"],
        &["--demo", "1", "--demo=2"],
        &["--workers", "4", "5"],
        &["--", "--workers", "4"],
        &["4", "--workers"],
    ];
    for words in cases {
        assert!(rt;
            said(rt.alloc(), words) == Err(WordsError::Usage),
            "{words:?}"
        );
    }
}
