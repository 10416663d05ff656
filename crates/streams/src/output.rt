// A text that is written to an output.
ghost use Rattle.std.specs.Prelude.{OnOk};
ghost use Rattle.std.specs.Io.KnownBytes.{Appends};
ghost use Rattle.streams.specs.Streams.{AppendsFront};

use std::io::{Error, ErrorKind, Result, Write};

// Writes all of a text. After an error the output has a front of it behind what was there. A write that a signal
// interrupted is made again. (std's `write_all` says nothing of what was written before an error.)
pub fn write_text<W: Write>(output: &mut W, text: &[u8]) -> Result<()>
    ensures ok { OnOk result (Appends (W.contents output.old) (W.contents output.new) text.now) }
    ensures front { AppendsFront (W.contents output.old) (W.contents output.new) text.now }
{
    let mut done = 0;
    // A loop has to be seen to end: this one does without an answer only after 2^64 - 1 steps.
    for _ in 0..u64::MAX {
        if done == text.len() {
            return Ok(());
        }
        match output.write(&text[done..]) {
            Ok(0) => return Err(Error::from(ErrorKind::WriteZero)),
            Ok(n) => done += n,
            Err(why) if why.kind() == ErrorKind::Interrupted => {}
            Err(why) => return Err(why),
        }
    }
    Err(Error::from(ErrorKind::Interrupted))
}

#[cfg(test)]
mod tests {
    use super::*;
    use std::alloc::Global;

    // Takes a byte at each second write, and is interrupted at the others. Where it is full, it fails or takes nothing.
    #[derive(Drop)]
    struct Narrow {
        held: Vec<u8>,
        room: usize,
        fails: Option<ErrorKind>,
        interrupted: bool,
    }

    impl Write for Narrow {
        fn write(&mut self, bytes: &[u8]) -> Result<usize> {
            self.interrupted = !self.interrupted;
            if self.interrupted {
                return Err(Error::from(ErrorKind::Interrupted));
            }
            let [first, ..] = bytes else {
                return Ok(0);
            };
            if self.held.len() == self.room {
                return match self.fails {
                    Some(kind) => Err(Error::from(kind)),
                    None => Ok(0),
                };
            }
            self.held.push(*first)?;
            Ok(1)
        }

        fn flush(&mut self) -> Result<()> {
            Ok(())
        }
    }

    fn empty(alloc: Global, room: usize, fails: Option<ErrorKind>) -> Narrow {
        Narrow {
            held: Vec::new(alloc),
            room,
            fails,
            interrupted: false,
        }
    }

    #[test]
    fn writes_all_or_a_front_and_fails_with_the_output(rt: HostRuntime) {
        let mut output = empty(rt.alloc(), 3, None);
        assert!(rt; write_text(&mut output, b"abc").is_ok());
        assert_eq!(rt; output.held.as_slice(), b"abc".as_slice());
        for fails in [Some(ErrorKind::Other), None] {
            let mut output = empty(rt.alloc(), 2, fails);
            let why = write_text(&mut output, b"abc").err().map(|why| why.kind());
            assert!(rt; why == Some(fails.unwrap_or(ErrorKind::WriteZero)));
            assert_eq!(rt; output.held.as_slice(), b"ab".as_slice());
        }
    }
}
