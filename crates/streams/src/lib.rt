// A program's standard input and standard output. Nothing is lost silently: where a read or a write fails, a line on
// standard error says so. It begins with the word LOST. What a system call does no proof can say, so the contracts here
// say what may come of it, and not which of these.

#![tactic(auto)]

ghost use Rattle.std.specs.Prelude.{◌≡◌, ◌≤◌, length};
ghost use Rattle.streams.specs.Streams.{nothing_sent, Sends, Receives, Fills};

use std::io::{Read, Write};
use std::{io, str};

// ---- what is said of a loss

// A read has failed, and standard error says so.
#[derive(Clone, Copy, Debug)]
pub struct Lost;

// The system's words in the text of an error, which ends with its number: `Broken pipe (os error 32)`.
fn words(text: &str) -> &str {
    text.rsplit_once(" (os error ")
        .map_or(text, |(words, _)| words)
}

// `LOST standard output after 512 bytes: No space left on device`: the stream, the bytes that went well, and the
// system's words for the error. Where no call failed they are `Success`.
fn say_lost(rt: &impl Eprint, stream: &str, bytes: u64, error: Option<io::Error>) {
    let error = error.unwrap_or(io::Error::from_raw_os_error(0));
    let mut page = [0u8; 128];
    let mut room = &mut page[..];
    let _ = write!(room, "{error}");
    let left = room.len();
    let n = page.len().saturating_sub(left);
    let reason = words(str::from_utf8(&page[..n]).unwrap_or(""));
    let _ = eprintln!(rt; "LOST {stream} after {bytes} bytes: {reason}");
}

// ---- standard output

// What has become of standard output: the bytes that it took, and whether a write has failed. It is no `Result`: both
// say something in each case, and `Sends` has them both. After a loss `send` keeps the count, and writes nothing.
#[derive(Clone, Copy)]
pub struct Sent {
    pub bytes: u64,
    pub lost: bool,
}

pub fn nothing_sent() -> Sent
    ensures { result ≡ nothing_sent }
{
    Sent {
        bytes: 0,
        lost: false,
    }
}

// Writes from the front of the bytes, in as many writes as it takes, up to one that fails or takes no byte. What was
// not taken stays in `rest`.
fn write_out(rt: &impl Print, rest: &mut &[u8]) -> io::Result<()>
    ensures { length rest.new.now ≤ length rest.old.now }
{
    while !rest.is_empty() {
        let k = rt.write_some(rest)?;
        if k == 0 {
            break;
        }
        *rest = &rest[k..];
    }
    Ok(())
}

// `rt` goes beside it: a struct of both would have to name the runtime's type wherever it goes.
impl Sent {
    // Writes the first n bytes of a page to standard output. After a write that failed nothing more is written. A page
    // that has fewer is a loss too, by `Sends`, so n stands beside the page.
    pub fn send(&mut self, rt: &(impl Print + Eprint), page: &[u8], n: usize)
        ensures { Sends self.old n self.new }
    {
        if self.lost {
            return;
        }
        let there = n.min(page.len());
        let mut rest = &page[..there];
        let error = write_out(rt, &mut rest).err();
        let done = there - rest.len();
        let bytes = self.bytes.saturating_add(done as u64);
        let lost = done < n;
        if lost {
            say_lost(rt, "standard output", bytes, error);
        }
        *self = Sent { bytes, lost };
    }
}

// ---- standard input

// One read, of as many bytes as there are and the buffer has room for: how many, at the front of the buffer, or none
// where the input has ended. `before` bytes were read before. The input is `rt.stdin()`, which keeps no bytes back.
pub fn receive(
    rt: &impl Eprint,
    input: &mut impl Read,
    buf: &mut [u8],
    before: u64,
) -> Result<Option<usize>, Lost>
    ensures { Receives (length buf.old) result }
{
    match input.read(buf) {
        Ok(0) => Ok(None),
        Ok(n) => Ok(Some(n)),
        Err(e) => {
            say_lost(rt, "standard input", before, Some(e));
            Err(Lost)
        }
    }
}

// Reads until the buffer is full or the input ends, in as many reads as it takes: how many bytes are at the front of
// the buffer, all that it holds or all that the input has left. A read gives any number of bytes, so no `for` counts
// them, and a full buffer asks for no further read.
pub fn fill(rt: &impl Eprint, input: &mut impl Read, buf: &mut [u8]) -> Result<usize, Lost>
    ensures { Fills (length buf.old) result }
{
    let mut n = 0;
    while n < buf.len() {
        let Some(k) = receive(rt, input, &mut buf[n..], n as u64)? else {
            break;
        };
        n += k;
    }
    Ok(n)
}
