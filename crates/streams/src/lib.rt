// Streams read into a buffer that the caller lends, with no heap.
#![tactic(auto)]

ghost use Rattle.std.specs.Prelude.{ℕ, ◌≤◌, ◌<◌, length, take, IfOk, OnErr};
ghost use Rattle.std.specs.Io.{ReadsAtMost};
ghost use Rattle.std.specs.Io.KnownBytes.{Consumes, IsAtEnd};

use std::io;
use std::io::Read;

// Reads until the buffer is full or the input ends, and returns how many bytes stand at its start. Short reads go on. After an
// error no byte is lost: those read before it stand at the buffer's start.
pub fn read_full<R: Read>(reader: &mut R, buf: &mut [u8]) -> io::Result<usize>
    ensures bound { ReadsAtMost result buf.new }
    ensures bytes { IfOk result (λ n. Consumes (R.remaining reader.old) (R.remaining reader.new) (take n buf.new)) }
    ensures end { IfOk result (λ n. n < length buf.new → IsAtEnd (R.remaining reader.new)) }
    ensures err { OnErr result ((n : ℕ) × (n ≤ length buf.new) × Consumes (R.remaining reader.old) (R.remaining reader.new) (take n buf.new)) }
{
    let mut done: usize = 0;
    // Not counted one by one: a read gives as many bytes as it likes.
    while done < buf.len() {
        let count = reader.read(&mut buf[done..])?;
        if count == 0 {
            break;
        }
        done += count;
    }
    Ok(done)
}

#[cfg(test)]
mod tests {
    use super::*;
    use std::io::ErrorKind;
    use std::test::Fail;

    #[derive(Drop)]
    struct Broken {}

    impl Read for Broken {
        fn read(&mut self, _buf: &mut [u8]) -> io::Result<usize> {
            Err(io::Error::from(ErrorKind::Other))
        }
    }

    #[test]
    fn goes_on_after_a_short_read(rt: HostRuntime) -> Result<(), Fail> {
        let front: &[u8] = b"ab";
        let back: &[u8] = b"cd";
        let mut buf = [b'.'; 5];
        let count = read_full(&mut front.chain(back), &mut buf)?;
        assert_eq!(rt; count, 4);
        assert_eq!(rt; buf, *b"abcd.");
        Ok(())
    }

    #[test]
    fn leaves_what_has_no_room(rt: HostRuntime) -> Result<(), Fail> {
        let mut reader: &[u8] = b"abcd";
        let mut buf = [b'.'; 3];
        let count = read_full(&mut reader, &mut buf)?;
        assert_eq!(rt; count, 3);
        assert_eq!(rt; buf, *b"abc");
        assert_eq!(rt; reader.len(), 1);
        Ok(())
    }

    #[test]
    fn passes_an_error_on(rt: HostRuntime) {
        let front: &[u8] = b"ab";
        let mut buf = [b'.'; 3];
        let read = read_full(&mut front.chain(Broken {}), &mut buf);
        assert!(rt; read.is_err());
        assert_eq!(rt; buf, *b"ab.");
    }
}
