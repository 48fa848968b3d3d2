use super::*;
use std::io;
use std::test::Fail;

// A reader that gives one piece, and then fails.
#[derive(Drop)]
struct Broken {
    reads: u32,
}

impl Read for Broken {
    fn read(&mut self, buf: &mut [u8]) -> io::Result<usize> {
        if self.reads > 0 || buf.is_empty() {
            return Err(io::Error::from(io::ErrorKind::Other));
        }
        self.reads = 1;
        buf[0] = b'x';
        Ok(1)
    }
}

#[test]
fn a_folder_keeps_what_is_written(rt: HostRuntime) -> Result<(), Fail> {
    let alloc = rt.alloc();
    let mut shelf = FolderShelf::new(&rt);
    assert_eq!(rt; shelf.write("folder-shelf.txt", b"abc"), Ok(()));
    let read = shelf
        .read(alloc, "folder-shelf.txt", 3)
        .ok()
        .ok_or("refused")?;
    assert_eq!(rt; read.as_slice(), b"abc".as_slice());
    assert_eq!(rt;
        shelf.read(alloc, "folder-shelf.txt", 2).err(),
        Some(ShelfError::TooLong)
    );
    assert_eq!(rt;
        shelf.read(alloc, "no-such-file.txt", 3).err(),
        Some(ShelfError::Failed)
    );
    assert_eq!(rt;
        shelf.write("no-such-folder/a.txt", b"abc"),
        Err(ShelfError::Failed)
    );
    assert_eq!(rt; (shelf.read_faults, shelf.write_faults), (1, 1));
    assert_eq!(rt; (shelf.taken, shelf.writes), (6, 2));
    fs::remove_file(&rt, "folder-shelf.txt")?;
    Ok(())
}

#[test]
fn a_read_that_breaks_off_is_refused(rt: HostRuntime) {
    let mut taken = 0;
    let answer = take_all(rt.alloc(), &mut Broken { reads: 0 }, 9, &mut taken);
    assert_eq!(rt; answer.err(), Some(ShelfError::Failed));
    assert_eq!(rt; taken, 1);
}
