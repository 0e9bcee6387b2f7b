//! Streams that are interrupted, and the random bytes of the system.
use block_traits::{Entropy, Sink, Source};
use file_edge::{InputSource, OutputSink, RandomFile, SystemFiles};
use std::cell::RefCell;
use std::io::{self, ErrorKind, Read, Write};
use std::rc::Rc;
use std::test::Fail;

// A stream whose first calls a signal interrupts.
#[derive(Drop)]
struct Interrupted<S: Drop> {
    left: u8,
    stream: S,
}

impl<S: Drop> Interrupted<S> {
    fn next(&mut self) -> io::Result<()> {
        if self.left > 0 {
            self.left -= 1;
            return Err(io::Error::from(ErrorKind::Interrupted));
        }
        Ok(())
    }
}

impl<S: Read + Drop> Read for Interrupted<S> {
    fn read(&mut self, buf: &mut [u8]) -> io::Result<usize> {
        self.next()?;
        self.stream.read(buf)
    }
}

impl<S: Write + Drop> Write for Interrupted<S> {
    fn write(&mut self, buf: &[u8]) -> io::Result<usize> {
        self.next()?;
        self.stream.write(buf)
    }

    fn flush(&mut self) -> io::Result<()> {
        self.stream.flush()
    }
}

#[test]
fn a_reader_is_a_source_and_a_writer_a_sink(rt: HostRuntime) -> Result<(), Fail> {
    let mut source = InputSource::new(Interrupted {
        left: 3,
        stream: b"abc".as_slice(),
    });
    let mut into = [0; 2];
    assert_eq!(rt; source.take(&mut into), Ok(2));
    assert_eq!(rt; into, *b"ab");
    assert_eq!(rt; source.take(&mut into), Ok(1));
    assert_eq!(rt; source.take(&mut into), Ok(0));
    let mut sink = OutputSink::new(Interrupted {
        left: 3,
        stream: Vec::new(rt.alloc()),
    });
    assert_eq!(rt; sink.give(b"ab"), Ok(2));
    Ok(())
}

// A stream that keeps what it is given until it is flushed, and how many bytes that are.
#[derive(Drop)]
struct Buffered {
    waiting: Rc<RefCell<usize>>,
}

impl Buffered {
    fn note(&self, waiting: usize) {
        if let Ok(mut noted) = self.waiting.try_borrow_mut() {
            *noted = waiting;
        }
    }
}

impl Write for Buffered {
    fn write(&mut self, buf: &[u8]) -> io::Result<usize> {
        self.note(buf.len());
        Ok(buf.len())
    }

    fn flush(&mut self) -> io::Result<()> {
        self.note(0);
        Ok(())
    }
}

// What a sink takes is out when it returns, also where a buffer stands before the output.
#[test]
fn what_a_sink_takes_is_out(rt: HostRuntime) -> Result<(), Fail> {
    let waiting = Rc::new(rt.alloc(), RefCell::new(9))?;
    let mut sink = OutputSink::new(Buffered {
        waiting: waiting.clone()?,
    });
    assert_eq!(rt; sink.give(b"ab"), Ok(2));
    assert!(rt; *waiting.try_borrow()? == 0);
    Ok(())
}

// More than 64 KiB are taken and given at once.
#[test]
fn long_pieces_are_taken_and_given_whole(rt: HostRuntime) -> Result<(), Fail> {
    let mut bytes = Vec::new(rt.alloc());
    bytes.resize(70_000, 7)?;
    let mut sink = OutputSink::new(Vec::new(rt.alloc()));
    assert!(rt; sink.give(&bytes).is_ok_and(|count| count == bytes.len()));
    let mut into = Vec::from_slice(rt.alloc(), &bytes)?;
    into.fill(0);
    if !into.is_empty() {
        let taken = InputSource::new(bytes.as_slice()).take(&mut into);
        assert!(rt; taken.is_ok_and(|count| count == bytes.len()));
    }
    assert!(rt; into.as_slice() == bytes.as_slice());
    Ok(())
}

#[test]
fn the_device_gives_random_bytes(rt: HostRuntime) -> Result<(), Fail> {
    let mut random = RandomFile::open(&mut SystemFiles::new(rt.clone()?));
    let mut first = [0; 32];
    let mut second = [0; 32];
    assert!(rt; random.fill(&mut first).is_ok());
    assert!(rt; random.fill(&mut second).is_ok());
    assert!(rt; first != second);
    Ok(())
}
