// The front of an input, read into a lent buffer.
ghost use Rattle.std.specs.Prelude.{◌≡◌, ◌≤◌, ℕ, List, length, take, IfOk, IfSome, OnErr};
ghost use Rattle.std.specs.Io.KnownBytes.{Consumes};

use std::io::{Error, ErrorKind, Read, Result};

// Reads until the buffer is full or the input ends, and answers how many bytes stand at the front of the buffer: all
// that the input held, or as many as there is room for. A read that fails ends it with that error, and the bytes read
// before it are lost. A read that a signal interrupted is made again.
pub fn read_front<R: Read>(input: &mut R, buffer: &mut [u8]) -> Result<usize>
    ensures within { IfOk result (λ n. n ≤ length buffer.new) }
    ensures front { IfOk result (λ n. IfSome (R.remaining input.old)
        (λ xs. take n buffer.new ≡ take (length buffer.new) xs)) }
    ensures rest { IfOk result (λ n. Consumes (R.remaining input.old) (R.remaining input.new) (take n buffer.new)) }
    ensures lost { OnErr result ((bytes : List ℕ) × Consumes (R.remaining input.old) (R.remaining input.new) bytes) }
{
    let mut done = 0;
    // A loop has to be seen to end: this one does without an answer only after 2^64 - 1 steps.
    for _ in 0..u64::MAX {
        if done == buffer.len() {
            return Ok(done);
        }
        match input.read(&mut buffer[done..]) {
            Ok(0) => return Ok(done),
            Ok(n) => done += n,
            Err(why) if why.kind() == ErrorKind::Interrupted => {}
            Err(why) => return Err(why),
        }
    }
    Err(Error::from(ErrorKind::Interrupted))
}

#[cfg(test)]
mod tests {
    use super::*;

    // Gives a byte at each second read, and is interrupted at the others. Behind the last byte it fails or ends.
    #[derive(Drop)]
    struct Drip<'a> {
        bytes: &'a [u8],
        fails: Option<ErrorKind>,
        interrupted: bool,
    }

    impl<'a> Read for Drip<'a> {
        fn read(&mut self, buffer: &mut [u8]) -> Result<usize> {
            self.interrupted = !self.interrupted;
            if self.interrupted {
                return Err(Error::from(ErrorKind::Interrupted));
            }
            let [first, rest @ ..] = self.bytes else {
                return match self.fails {
                    Some(kind) => Err(Error::from(kind)),
                    None => Ok(0),
                };
            };
            let Some(place) = buffer.first_mut() else {
                return Ok(0);
            };
            *place = *first;
            self.bytes = rest;
            Ok(1)
        }
    }

    fn front(fails: Option<ErrorKind>, buffer: &mut [u8]) -> Result<usize> {
        let mut input = Drip {
            bytes: b"abc",
            fails,
            interrupted: false,
        };
        read_front(&mut input, buffer)
    }

    #[test]
    fn stops_at_the_end_and_at_a_full_buffer_and_fails_with_the_input(rt: HostRuntime) {
        let mut buffer = *b"-----";
        assert_eq!(rt; front(None, &mut buffer).ok(), Some(3));
        assert_eq!(rt; &buffer, b"abc--");
        let mut buffer = *b"--";
        assert_eq!(rt; front(Some(ErrorKind::Other), &mut buffer).ok(), Some(2));
        assert_eq!(rt; &buffer, b"ab");
        let mut buffer = *b"-----";
        let why = front(Some(ErrorKind::Other), &mut buffer)
            .err()
            .map(|why| why.kind());
        assert!(rt; why == Some(ErrorKind::Other));
    }
}
