ghost use Rattle.std.specs.Prelude.{◌≡◌, ◌≢◌, ◌<◌, length, Err, IfOk, IsOk};

use ae_io::{
    Failed, FaultlessSink, FaultlessSource, MemSink, MemSource, ReadEnd, Sink, Source, StdSink,
    StdSource, WriteEnd, read_all, write_all,
};
use std::alloc::Global;
use std::io;
use std::test::Fail;

// A reader that gives "ab", fails, gives "c", and is at its end.
#[derive(Drop)]
struct FailingReader {
    turn: u8,
}

impl io::Read for FailingReader {
    fn read(&mut self, buf: &mut [u8]) -> io::Result<usize> {
        let turn = self.turn;
        self.turn = turn.saturating_add(1);
        let piece: &[u8] = match turn {
            0 => b"ab",
            1 => return Err(io::Error::from(io::ErrorKind::TimedOut)),
            2 => b"c",
            _ => b"",
        };
        let count = piece.len().min(buf.len());
        buf[..count].copy_from_slice(&piece[..count]);
        Ok(count)
    }
}

#[test]
fn std_source_gives_what_its_reader_gives(rt: HostRuntime) -> Result<(), Fail> {
    let alloc = rt.alloc();
    let mut source = StdSource::new(FailingReader { turn: 0 });
    let mut buf = [0u8; 8];
    assert_eq!(rt; source.read(&mut buf), Ok(2));
    assert_eq!(rt; &buf[..2], b"ab".as_slice());
    assert_eq!(rt; source.read(&mut buf), Err(Failed));
    assert_eq!(rt; source.read(&mut buf), Ok(1));
    assert_eq!(rt; &buf[..1], b"c".as_slice());
    assert_eq!(rt; source.read(&mut buf), Ok(0));

    let mut whole = StdSource::new(b"goal g : a = b".as_slice());
    let bytes = read_all(alloc, &mut whole, 14)?;
    assert_eq!(rt; bytes.as_slice(), b"goal g : a = b".as_slice());
    let mut failing = StdSource::new(FailingReader { turn: 0 });
    assert!(rt; matches!(read_all(alloc, &mut failing, 14), Err(ReadEnd::ReadFault)));
    Ok(())
}

// A writer that takes two bytes, fails, takes none, and takes two bytes at each later call.
#[derive(Drop)]
struct FailingWriter {
    turn: u8,
    got: Vec<u8>,
}

impl io::Write for FailingWriter {
    fn write(&mut self, buf: &[u8]) -> io::Result<usize> {
        let turn = self.turn;
        self.turn = turn.saturating_add(1);
        match turn {
            1 => return Err(io::Error::from(io::ErrorKind::BrokenPipe)),
            2 => return Ok(0),
            _ => {}
        }
        let count = buf.len().min(2);
        self.got.extend_from_slice(&buf[..count])?;
        Ok(count)
    }

    fn flush(&mut self) -> io::Result<()> {
        Ok(())
    }
}

#[test]
fn std_sink_hands_on_to_its_writer(rt: HostRuntime) -> Result<(), Fail> {
    let mut writer = FailingWriter {
        turn: 0,
        got: Vec::new(rt.alloc()),
    };
    let mut sink = StdSink::new(&mut writer);
    assert_eq!(rt; sink.write(b"goal"), Ok(2));
    assert_eq!(rt; sink.write(b"al"), Err(Failed));
    assert_eq!(rt; write_all(&mut sink, b"al"), Err(WriteEnd::WriteFault));
    assert_eq!(rt; write_all(&mut sink, b"al g Valid"), Ok(()));
    assert_eq!(rt; writer.got.as_slice(), b"goal g Valid".as_slice());
    Ok(())
}

#[test]
fn read_all_reads_to_the_end_fails_or_stops_past_the_limit(rt: HostRuntime) -> Result<(), Fail> {
    let alloc = rt.alloc();
    let text = || vec![in alloc; b't', b'y', b'p', b'e', b' ', b't'];
    let mut whole = MemSource::new(text()?, 4, Vec::new(alloc));
    assert_eq!(rt;
        read_all(alloc, &mut whole, 6)?.as_slice(),
        b"type t".as_slice()
    );
    assert_eq!(rt; whole.calls(), 3);
    let mut long = MemSource::new(text()?, 4, Vec::new(alloc));
    assert!(rt; matches!(read_all(alloc, &mut long, 5), Err(ReadEnd::TooLong)));
    let mut failing = MemSource::new(text()?, 4, vec![in alloc; 1]?);
    assert!(rt; matches!(read_all(alloc, &mut failing, 6), Err(ReadEnd::ReadFault)));
    assert_eq!(rt; failing.calls(), 2);
    Ok(())
}

#[test]
fn write_all_writes_a_prefix_where_it_fails(rt: HostRuntime) -> Result<(), Fail> {
    let alloc = rt.alloc();
    let line = b"goal g Valid\n";
    let mut whole = MemSink::new(Vec::with_capacity(alloc, 16)?, 8, Vec::new(alloc));
    assert_eq!(rt; write_all(&mut whole, line), Ok(()));
    assert_eq!(rt; whole.kept(), line.as_slice());
    let mut failing = MemSink::new(Vec::with_capacity(alloc, 16)?, 8, vec![in alloc; 1]?);
    assert_eq!(rt; write_all(&mut failing, line), Err(WriteEnd::WriteFault));
    assert_eq!(rt; failing.kept(), b"goal g V".as_slice());
    assert_eq!(rt; failing.calls(), 2);
    Ok(())
}

// A count of 0 never rises, so no fault comes from a source and a sink that count none.
fn read_faultless(
    alloc: Global,
    source: &mut FaultlessSource,
    limit: usize,
) -> Result<Vec<u8>, ReadEnd>
    ensures no_fault { result ≢ Err ReadEnd.ReadFault }
    ensures long { result ≡ Err ReadEnd.TooLong → limit < length source.old }
    ensures whole { IfOk result (λ v. v.items ≡ source.old) }
{
    read_all(alloc, source, limit)
}

fn write_faultless(sink: &mut FaultlessSink, bytes: &[u8]) -> Result<(), WriteEnd>
    ensures no_fault { IsOk result }
{
    write_all(sink, bytes)
}

#[test]
fn faultless_sources_and_sinks_have_no_fault(rt: HostRuntime) -> Result<(), Fail> {
    let alloc = rt.alloc();
    let mut source = FaultlessSource::new(vec![in alloc; b'g', b'o', b'a', b'l']?);
    let bytes = read_faultless(alloc, &mut source, 16)?;
    assert_eq!(rt; bytes.as_slice(), b"goal".as_slice());
    let mut sink = FaultlessSink::new(Vec::with_capacity(alloc, 8)?);
    assert_eq!(rt; write_faultless(&mut sink, &bytes), Ok(()));
    assert_eq!(rt; sink.kept(), b"goal".as_slice());
    assert_eq!(rt;
        write_faultless(&mut sink, b" and more than there is room for"),
        Ok(())
    );
    assert!(rt; sink.kept().starts_with(b"goal and"));
    Ok(())
}
