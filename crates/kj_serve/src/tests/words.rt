//! Words that are no form.
use crate::status::{NO_MEMORY, WRONG_WORDS, of_unread_words};
use crate::tests::done;
use crate::tests::scripts::TWO;
use kj_io::Turn;
use std::io::ErrorKind;
use std::test::Fail;

#[test]
fn other_words(rt: HostRuntime) -> Result<(), Fail> {
    let alloc = rt.alloc();
    let cases: [&[&str]; 14] = [
        &[],
        &["Run"],
        &["run", "run"],
        &["run "],
        &["replay", "2", "echo"],
        &["replay", "01", "echo"],
        &["replay", "1", "far"],
        &["replay", "1"],
        &["make", "1", "1"],
        &["make", "1", "0", "1"],
        &["make", "1", "4097", "1"],
        &["make", "1", "4096", "25"],
        &["make", "18446744073709551616", "1", "1"],
        &["make", "+1", "1", "1"],
    ];
    for case in cases {
        let mut single = Vec::new(alloc);
        single.push(Turn::Fault)?;
        let ended = done(&rt, alloc, case, TWO, single, Vec::new(alloc))?;
        assert!(&rt; ended.is(2, b""), "of {} words", case.len());
        assert_eq!(&rt; ended.reads, 0);
    }
    Ok(())
}

#[test]
fn words_that_are_not_read(rt: HostRuntime) -> Result<(), Fail> {
    assert_eq!(&rt; of_unread_words(ErrorKind::OutOfMemory), NO_MEMORY);
    assert_eq!(&rt; of_unread_words(ErrorKind::InvalidData), WRONG_WORDS);
    assert_eq!(&rt; of_unread_words(ErrorKind::Other), WRONG_WORDS);
    Ok(())
}
