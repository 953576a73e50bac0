ghost use Rattle.std.specs.Prelude.{◌≡◌, IfOk};

use crate::*;
use std::io;
use std::io::{ErrorKind, Read, Write};
use std::test::Fail;

#[test]
fn reads_a_reader(rt: HostRuntime) -> Result<(), Fail> {
    let alloc = rt.alloc();
    let mut source = StdSource::new(b"0123456789".as_slice());
    assert_eq!(rt;
        read_to_end(alloc, &mut source)?.as_slice(),
        b"0123456789".as_slice()
    );
    Ok(())
}

#[test]
fn writes_to_a_writer(rt: HostRuntime) -> Result<(), Fail> {
    let alloc = rt.alloc();
    let mut written = Vec::new(alloc);
    let mut sink = StdSink::new(&mut written);
    write_all(&mut sink, b"01234")?;
    write_all(&mut sink, b"56789")?;
    assert_eq!(rt; written.as_slice(), b"0123456789".as_slice());
    Ok(())
}

/// A reader and writer whose first call fails, and which counts its calls.
#[derive(Drop)]
struct FailsFirst {
    calls: u64,
}

impl FailsFirst {
    fn answer(&mut self) -> io::Result<usize>
        ensures { IfOk result (λ n. n ≡ 0) }
    {
        self.calls = self.calls.saturating_add(1);
        if self.calls == 1 {
            return Err(io::Error::from(ErrorKind::Interrupted));
        }
        Ok(0)
    }
}

impl Read for FailsFirst {
    fn read(&mut self, _buf: &mut [u8]) -> io::Result<usize> {
        self.answer()
    }
}

impl Write for FailsFirst {
    fn write(&mut self, _buf: &[u8]) -> io::Result<usize> {
        self.answer()
    }

    fn flush(&mut self) -> io::Result<()> {
        Ok(())
    }
}

#[test]
fn tries_no_failed_call_again(rt: HostRuntime) {
    let mut outside = FailsFirst { calls: 0 };
    assert_eq!(rt;
        StdSource::new(&mut outside).take(&mut [0u8; 4]),
        Err(Failed)
    );
    assert_eq!(rt; outside.calls, 1);
    assert_eq!(rt; StdSource::new(&mut outside).take(&mut [0u8; 4]), Ok(0));
    let mut outside = FailsFirst { calls: 0 };
    assert_eq!(rt; StdSink::new(&mut outside).give(b"0123"), Err(Failed));
    assert_eq!(rt; outside.calls, 1);
    assert_eq!(rt; StdSink::new(&mut outside).give(b"0123"), Err(Failed));
}
