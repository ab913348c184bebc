use super::command_words;
use std::env::{Env, FillError};
use std::test::Fail;

// The words of a command line, with the program's name.
#[derive(Drop)]
struct CommandLine {
    words: [&'static [u8]; 4],
}

impl Env for CommandLine {
    fn arg(&self, i: usize, buf: &mut [u8]) -> Result<usize, FillError> {
        let Some(word) = self.words.get(i) else {
            return Err(FillError::NotPresent);
        };
        let Some(room) = buf.get_mut(..word.len()) else {
            return Err(FillError::TooLong);
        };
        room.copy_from_slice(word);
        Ok(word.len())
    }

    fn var(&self, _name: &str, _buf: &mut [u8]) -> Result<usize, FillError> {
        Err(FillError::NotPresent)
    }

    fn var_at(&self, _i: usize, _buf: &mut [u8]) -> Result<usize, FillError> {
        Err(FillError::NotPresent)
    }
}

#[test]
fn the_words_are_those_behind_the_name(rt: HostRuntime) -> Result<(), Fail> {
    let line = CommandLine {
        words: [b"h2", b"format", b"volume.img", b"4"],
    };
    let words = command_words(&(line, rt.alloc()))?;
    assert_eq!(rt; words.len(), 3);
    for (word, want) in words.iter().zip(["format", "volume.img", "4"]) {
        assert_eq!(rt; word.as_str(), want);
    }
    Ok(())
}

#[test]
fn words_that_are_no_text_are_none(rt: HostRuntime) -> Result<(), Fail> {
    let line = CommandLine {
        words: [b"h2", b"format", b"volume-\xff.img", b"4"],
    };
    let words = command_words(&(line, rt.alloc()))?;
    assert!(rt; words.is_empty());
    Ok(())
}
