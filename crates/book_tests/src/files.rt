//! Books as files: what is read of one, and what is said where it cannot be read.
use book::Book;
use book_file::{MOST_READ, Unreadable, first_bytes, text_of};
use std::io;
use std::io::{ErrorKind, Read};
use std::test::Fail;

// Gives some bytes, and then only errors.
#[derive(Drop)]
struct Broken {
    left: usize,
}

impl Read for Broken {
    fn read(&mut self, buf: &mut [u8]) -> io::Result<usize> {
        if self.left == 0 || buf.is_empty() {
            return Err(io::Error::other("the disk is broken"));
        }
        buf[0] = b'\n';
        self.left -= 1;
        Ok(1)
    }
}

#[test]
fn a_file_is_its_bytes(rt: HostRuntime) -> Result<(), Fail> {
    let heap = rt.alloc();
    let book = b"(keys 0 61)\n";
    let text = text_of(heap, first_bytes(heap, book.as_slice()))?;
    assert_eq!(rt; text.as_slice(), book.as_slice());
    Ok(())
}

// A file is read no further than what shows that the book is too long.
#[test]
fn a_long_file(rt: HostRuntime) -> Result<(), Fail> {
    let heap = rt.alloc();
    let long = b"\n".repeat(heap, 70000)?;
    let text = first_bytes(heap, long.as_slice())?;
    assert_eq!(rt; text.len(), 65537);
    assert_eq!(rt; text.len(), MOST_READ);
    assert!(rt; Book::read(text.as_slice()).is_err());
    Ok(())
}

#[test]
fn a_file_that_breaks_off(rt: HostRuntime) -> Result<(), Fail> {
    let read = first_bytes(rt.alloc(), Broken { left: 5 });
    let unreadable = text_of(rt.alloc(), read).err().ok_or("it was read")?;
    assert_eq!(rt;
        unreadable.to_string(rt.alloc())?.as_str(),
        "organ.book: it cannot be read: the disk is broken"
    );
    Ok(())
}

#[test]
fn no_file(rt: HostRuntime) -> Result<(), Fail> {
    let missing = Err(io::Error::from(ErrorKind::NotFound));
    let text = text_of(rt.alloc(), missing)?;
    assert!(rt; text.is_empty());
    Ok(())
}

#[test]
fn sentences(rt: HostRuntime) -> Result<(), Fail> {
    let cases: [(ErrorKind, &'static str); 4] = [
        (
            ErrorKind::IsADirectory,
            "organ.book: it is a directory; a book is a file of text",
        ),
        (
            ErrorKind::PermissionDenied,
            "organ.book: no leave to read it; change its permissions",
        ),
        (
            ErrorKind::OutOfMemory,
            "organ.book: there is no memory to read it; end other programs",
        ),
        (
            ErrorKind::TimedOut,
            "organ.book: it cannot be read: timed out",
        ),
    ];
    for (kind, sentence) in cases {
        let unreadable = Unreadable::new(io::Error::from(kind));
        assert_eq!(rt; unreadable.to_string(rt.alloc())?.as_str(), sentence);
    }
    Ok(())
}
