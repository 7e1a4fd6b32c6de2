//! Files and streams of the operating system, and readers and writers that are slow, interrupted or broken.

use lam_io::{Fetch, FileShelf, PutFault, Shelf, Sink, StdSink, read_start};
use std::io::{ErrorKind, Read, Write};
use std::test::Fail;
use std::{fs, io};

// Gives its bytes a few at a time, after some interruptions, and then the end or an error.
#[derive(Drop)]
struct SlowReader {
    left: &'static [u8],
    most: usize,
    interruptions: u32,
    fails: bool,
}

impl Read for SlowReader {
    fn read(&mut self, buf: &mut [u8]) -> io::Result<usize> {
        if self.interruptions > 0 {
            self.interruptions -= 1;
            return Err(io::Error::from(ErrorKind::Interrupted));
        }
        if self.left.is_empty() && self.fails {
            return Err(io::Error::from(ErrorKind::Other));
        }
        let given = self.most.min(buf.len()).min(self.left.len());
        buf[..given].copy_from_slice(&self.left[..given]);
        self.left = &self.left[given..];
        Ok(given)
    }
}

#[test]
fn reads_go_on_to_the_end_or_the_limit(rt: HostRuntime) -> Result<(), Fail> {
    // The bytes at a time, the interruptions, whether an error comes at the end, the limit,
    // and what is read.
    let cases: [(usize, u32, bool, u64, Option<&str>); 8] = [
        (9, 0, false, 9, Some("abcde")),
        (2, 0, false, 9, Some("abcde")),
        (2, 3, false, 4, Some("abcde")),
        (2, 0, false, 3, Some("abcd")),
        (2, 0, true, 3, Some("abcd")),
        (2, 0, true, 9, None),
        (2, 999, false, 0, Some("a")),
        (2, 1000, false, 9, None),
    ];
    for (most, interruptions, fails, limit, want) in cases {
        let mut reader = SlowReader {
            left: b"abcde",
            most,
            interruptions,
            fails,
        };
        let got = read_start(rt.alloc(), &mut reader, limit);
        match want {
            Some(text) => assert_eq!(rt; got?.as_slice(), text.as_bytes()),
            None => assert!(rt; got == Err(Fetch::Fault)),
        }
    }
    Ok(())
}

#[test]
fn devices_are_read_and_what_is_missing_is_a_fault(rt: HostRuntime) -> Result<(), Fail> {
    let mut shelf = FileShelf::new(&rt);
    assert_eq!(rt;
        shelf.fetch(rt.alloc(), "/dev/null", 4)?.as_slice(),
        b"".as_slice()
    );
    assert_eq!(rt;
        shelf.fetch(rt.alloc(), "/dev/zero", 4)?.as_slice(),
        [0; 5].as_slice()
    );
    for missing in ["/no such file", "/", ""] {
        assert!(rt; shelf.fetch(rt.alloc(), missing, 4) == Err(Fetch::Fault));
    }
    Ok(())
}

#[test]
fn the_file_of_exactly_that_name_is_opened(rt: HostRuntime) -> Result<(), Fail> {
    fs::write(&rt, " nmos.toml ", b"abc")?;
    let mut shelf = FileShelf::new(&rt);
    assert_eq!(rt;
        shelf.fetch(rt.alloc(), " nmos.toml ", 4)?.as_slice(),
        b"abc".as_slice()
    );
    for other in ["nmos.toml ", " nmos.toml", "nmos.toml"] {
        assert!(rt; shelf.fetch(rt.alloc(), other, 4) == Err(Fetch::Fault));
    }
    Ok(fs::remove_file(&rt, " nmos.toml ")?)
}

// Takes a few bytes at a time, after some interruptions, until its room is full.
#[derive(Drop)]
struct SlowWriter<'a> {
    taken: &'a mut Vec<u8>,
    room: usize,
    most: usize,
    interruptions: u32,
    flush_fails: bool,
}

impl Write for SlowWriter<'_> {
    fn write(&mut self, buf: &[u8]) -> io::Result<usize> {
        if self.interruptions > 0 {
            self.interruptions -= 1;
            return Err(io::Error::from(ErrorKind::Interrupted));
        }
        let room = self.room - self.taken.len().min(self.room);
        let taken = self.most.min(buf.len()).min(room);
        self.taken.extend_from_slice(&buf[..taken])?;
        Ok(taken)
    }

    fn flush(&mut self) -> io::Result<()> {
        if self.flush_fails {
            return Err(io::Error::from(ErrorKind::Other));
        }
        Ok(())
    }
}

#[test]
fn writes_go_on_until_all_is_taken(rt: HostRuntime) -> Result<(), Fail> {
    // The room, the bytes at a time, the interruptions, whether flushes fail, what is written of
    // a chunk of five bytes, and whether the put fails.
    let cases: [(usize, usize, u32, bool, &str, bool); 7] = [
        (9, 9, 0, false, "abcde", false),
        (5, 2, 3, false, "abcde", false),
        (4, 2, 0, false, "abcd", true),
        (9, 0, 0, false, "", true),
        (9, 2, 0, true, "abcde", true),
        (9, 2, 999, false, "abcde", false),
        (9, 2, 1000, false, "", true),
    ];
    for (room, most, interruptions, flush_fails, want, fails) in cases {
        let mut taken = Vec::new(rt.alloc());
        let mut sink = StdSink::new(SlowWriter {
            taken: &mut taken,
            room,
            most,
            interruptions,
            flush_fails,
        });
        assert_eq!(rt; sink.put(b"").is_err(), false);
        assert_eq!(rt; sink.put(b"abcde").is_err(), fails);
        drop(sink);
        assert_eq!(rt; taken.as_slice(), want.as_bytes());
    }
    Ok(())
}

#[test]
fn devices_are_written_and_full_ones_refuse(rt: HostRuntime) -> Result<(), Fail> {
    let mut sink = StdSink::new(fs::OpenOptions::new().write(true).open(&rt, "/dev/null")?);
    assert_eq!(rt; sink.put(b"abc"), Ok(()));
    let mut full = StdSink::new(fs::OpenOptions::new().write(true).open(&rt, "/dev/full")?);
    assert_eq!(rt; full.put(b""), Ok(()));
    assert_eq!(rt; full.put(b"abc"), Err(PutFault));
    Ok(())
}
