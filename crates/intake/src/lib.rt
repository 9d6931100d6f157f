// Bytes from a reader into a buffer of a fixed length.
#![tactic(auto)]

ghost use Rattle.std.specs.Prelude.{ℕ, ◌<◌, ◌≤◌, length, take, IfOk, OnErr};
ghost use Rattle.std.specs.Io.{ReadsAtMost};
ghost use Rattle.std.specs.Io.KnownBytes.{Consumes, IsAtEnd};

use std::io;
use std::io::Read;

// Reads until the buffer is full or the input ends, and returns how many bytes it put at the start of the buffer. Where a read fails the error
// is returned, and what was read before it stands there.
pub fn read_full<R: Read>(reader: &mut R, buf: &mut [u8]) -> io::Result<usize>
    ensures bound { ReadsAtMost result buf.new }
    ensures bytes { IfOk result (λ n. Consumes (R.remaining reader.old) (R.remaining reader.new) (take n buf.new)) }
    ensures end { IfOk result (λ n. n < length buf.new → IsAtEnd (R.remaining reader.new)) }
    ensures err { OnErr result ((n : ℕ) × (n ≤ length buf.new)
        × Consumes (R.remaining reader.old) (R.remaining reader.new) (take n buf.new)) }
{
    let mut done = 0;
    while done < buf.len() {
        match reader.read(&mut buf[done..])? {
            0 => return Ok(done),
            n => done += n,
        }
    }
    Ok(done)
}

#[cfg(test)]
mod tests {
    use super::*;
    use std::io::ErrorKind;
    use std::test::Fail;

    // Gives a byte at a time, counting down, and fails at 0.
    #[derive(Drop)]
    struct Countdown(u8);

    impl Read for Countdown {
        fn read(&mut self, buf: &mut [u8]) -> io::Result<usize> {
            if self.0 == 0 {
                return Err(io::Error::from(ErrorKind::BrokenPipe));
            }
            if buf.is_empty() {
                return Ok(0);
            }
            buf[0] = self.0;
            self.0 -= 1;
            Ok(1)
        }
    }

    #[test]
    fn stops_at_the_end_and_at_a_full_buffer(rt: HostRuntime) -> Result<(), Fail> {
        let mut text: &[u8] = b"abcde";
        let mut buf = [0u8; 3];
        assert_eq!(rt; read_full(&mut text, &mut buf)?, 3);
        assert_eq!(rt; buf.as_slice(), b"abc".as_slice());
        assert_eq!(rt; read_full(&mut text, &mut buf)?, 2);
        assert_eq!(rt; buf.as_slice(), b"dec".as_slice());
        assert_eq!(rt; read_full(&mut text, &mut buf)?, 0);
        Ok(())
    }

    #[test]
    fn gives_the_error_of_a_read(rt: HostRuntime) -> Result<(), Fail> {
        let mut buf = [0u8; 3];
        assert_eq!(rt; read_full(&mut Countdown(3), &mut buf)?, 3);
        assert_eq!(rt; buf.as_slice(), [3, 2, 1].as_slice());
        let failed = read_full(&mut Countdown(2), &mut buf);
        assert_eq!(rt; failed.map_err(|e| e.kind()), Err(ErrorKind::BrokenPipe));
        assert_eq!(rt; buf.as_slice(), [2, 1, 1].as_slice());
        Ok(())
    }
}
