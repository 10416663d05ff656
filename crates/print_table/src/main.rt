// Prints the table of the precision that standard input requests, or the refusal. Where standard input cannot be read,
// or standard output not be written, it ends with status 1 and a message.
#![tactic(auto)]

use std::io;

fn main(rt: HostRuntime) -> io::Result<()> {
    table_text::run(&mut rt.stdin(), &mut rt.stdout())
}

#[cfg(test)]
mod tests {
    use std::io::{Error, ErrorKind, Read, Result, Write};

    // Gives a byte at a time, and fails behind the last one.
    #[derive(Drop)]
    struct Broken<'a> {
        bytes: &'a [u8],
    }

    impl<'a> Read for Broken<'a> {
        fn read(&mut self, buffer: &mut [u8]) -> Result<usize> {
            let ([first, rest @ ..], Some(place)) = (self.bytes, buffer.first_mut()) else {
                return Err(Error::from(ErrorKind::Other));
            };
            *place = *first;
            self.bytes = rest;
            Ok(1)
        }
    }

    // Takes a byte at a time, and fails where it is full. What it held at the last flush is what another sees of it.
    #[derive(Drop)]
    struct Narrow {
        held: Vec<u8>,
        room: usize,
        flushed: usize,
    }

    impl Write for Narrow {
        fn write(&mut self, bytes: &[u8]) -> Result<usize> {
            let [first, ..] = bytes else {
                return Ok(0);
            };
            if self.held.len() == self.room {
                return Err(Error::from(ErrorKind::StorageFull));
            }
            self.held.push(*first)?;
            Ok(1)
        }

        fn flush(&mut self) -> Result<()> {
            self.flushed = self.held.len();
            Ok(())
        }
    }

    #[test]
    fn fails_with_its_input_and_its_output(rt: HostRuntime) {
        let mut output = Narrow {
            held: Vec::new(rt.alloc()),
            room: 13,
            flushed: 0,
        };
        let done = table_text::run(&mut Broken { bytes: b"2\n" }, &mut output);
        assert!(rt; done.is_err() && output.held.is_empty());
        let done = table_text::run(&mut b"2\n".as_slice(), &mut output);
        assert!(rt; done.is_err());
        assert_eq!(rt; output.held.as_slice(), b"precision 2 b".as_slice());
    }

    #[test]
    fn flushes_its_output(rt: HostRuntime) {
        let mut output = Narrow {
            held: Vec::new(rt.alloc()),
            room: 10,
            flushed: 0,
        };
        assert!(rt; table_text::run(&mut b"13\n".as_slice(), &mut output).is_ok());
        assert_eq!(rt; output.held.as_slice(), b"refused 1\n".as_slice());
        assert!(rt; output.flushed == 10);
    }
}
