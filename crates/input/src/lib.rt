// An open input read to its end, of which the first bytes are kept in a window.
#![tactic(auto)]

ghost use Rattle.input.specs.Reads.{FrontOf, FrontRead};

use std::io;
use std::io::Read;

// Reads until the window is full, the input ends or a read fails: how many bytes of the window were read. The end is met once, so that a
// terminal is asked for it once.
#[tactic(auto, using(crate::proofs::Keeping::kept_more))]
fn fill<R: Read>(input: &mut R, window: &mut [u8]) -> io::Result<usize>
    ensures within { FrontRead result window.new }
    ensures bytes { FrontOf result (R.remaining input.old) window.new }
{
    let mut kept: usize = 0;
    while kept < window.len() {
        let more = input.read(&mut window[kept..])?;
        if more == 0 {
            return Ok(kept);
        }
        kept += more;
    }
    Ok(kept)
}

// Reads an input on to its end, so that whoever writes to it is not cut off.
// A proved loop has to end, and nothing says that the input does: the turns are counted down from a number that no run uses up.
fn read_on<R: Read>(input: &mut R) -> io::Result<()> {
    let mut rest = [0u8; 65536];
    let mut turns = u64::MAX;
    while turns > 0 {
        let got = input.read(&mut rest)?;
        if got == 0 {
            break;
        }
        turns -= 1;
    }
    Ok(())
}

// Reads an input to its end and keeps as many bytes as the window holds: how many. What is behind them is read only where the window is
// full. A read that fails is no end: it is answered as the error that it is.
pub fn read_front<R: Read>(input: &mut R, window: &mut [u8]) -> io::Result<usize>
    ensures within { FrontRead result window.new }
    ensures bytes { FrontOf result (R.remaining input.old) window.new }
{
    let n = fill(input, window)?;
    if n < window.len() {
        return Ok(n);
    }
    read_on(input)?;
    Ok(n)
}

#[cfg(test)]
mod tests {
    use super::*;
    use std::io::ErrorKind;

    // Three bytes, and then a read that fails.
    #[derive(Drop)]
    struct Breaking {
        left: usize,
    }

    impl Read for Breaking {
        fn read(&mut self, buf: &mut [u8]) -> io::Result<usize> {
            if self.left == 0 {
                return Err(io::Error::from(ErrorKind::Other));
            }
            if buf.is_empty() {
                return Ok(0);
            }
            buf[0] = 7;
            self.left -= 1;
            Ok(1)
        }
    }

    #[test]
    fn keeps_the_front(rt: HostRuntime) {
        let mut window = [0u8; 3];
        let n = read_front(&mut b"abcde".as_slice(), &mut window).unwrap_or(99);
        assert_eq!(rt; n, 3);
        assert_eq!(rt; window, [b'a', b'b', b'c']);
    }

    #[test]
    fn keeps_a_short_input(rt: HostRuntime) {
        let mut window = [0u8; 3];
        let n = read_front(&mut b"ab".as_slice(), &mut window).unwrap_or(99);
        assert_eq!(rt; n, 2);
        assert_eq!(rt; window, [b'a', b'b', 0]);
    }

    // In the window, and behind it.
    #[test]
    fn tells_a_read_that_fails(rt: HostRuntime) {
        let mut long = [0u8; 8];
        assert_eq!(rt;
            read_front(&mut Breaking { left: 3 }, &mut long).unwrap_or(99),
            99
        );
        let mut short = [0u8; 2];
        assert_eq!(rt;
            read_front(&mut Breaking { left: 3 }, &mut short).unwrap_or(99),
            99
        );
    }
}
