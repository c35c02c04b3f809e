//! Whether standard error is systemd's journal.
use std::os::unix::fs::MetadataExt;
use std::rt::{Env, Files};
use std::{fs, str};

/// Returns whether JOURNAL_STREAM has the device and inode numbers of standard error, as systemd sets it.
pub fn is_journal<R: Env + Files>(rt: &R) -> bool {
    let mut buffer = [0; 64];
    let Ok(length) = rt.var("JOURNAL_STREAM", &mut buffer) else {
        return false;
    };
    let Some(bytes) = buffer.get(..length) else {
        return false;
    };
    let Ok(stream) = str::from_utf8(bytes) else {
        return false;
    };
    let Ok(errors) = fs::metadata(rt, "/proc/self/fd/2") else {
        return false;
    };
    let mut numbers = stream.split(':');
    is_number(numbers.next(), errors.dev()) && is_number(numbers.next(), errors.ino())
}

// Whether a word is that number.
fn is_number(word: Option<&str>, number: u64) -> bool {
    match word {
        Some(word) => match word.parse::<u64>() {
            Ok(found) => found == number,
            Err(_) => false,
        },
        None => false,
    }
}
