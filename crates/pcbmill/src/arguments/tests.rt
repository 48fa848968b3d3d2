use super::words;
use std::env::FillError;
use std::rt::Env;
use std::test::Fail;

// A command line with so many words behind the program's name, each of one letter.
#[derive(Drop)]
struct Line {
    words: usize,
}

impl Env for Line {
    fn arg(&self, i: usize, buf: &mut [u8]) -> Result<usize, FillError> {
        if self.words < i || buf.is_empty() {
            return Err(FillError::NotPresent);
        }
        buf[0] = b'w';
        Ok(1)
    }

    fn var(&self, _name: &str, _buf: &mut [u8]) -> Result<usize, FillError> {
        Err(FillError::NotPresent)
    }

    fn var_at(&self, _i: usize, _buf: &mut [u8]) -> Result<usize, FillError> {
        Err(FillError::NotPresent)
    }
}

#[test]
fn all_words_are_taken(rt: HostRuntime) -> Result<(), Fail> {
    let alloc = rt.alloc();
    for count in [0, 1, 8, 40] {
        let line = Line { words: count };
        let taken = words(&line, alloc)?;
        assert_eq!(rt; taken.len(), count);
    }
    Ok(())
}
