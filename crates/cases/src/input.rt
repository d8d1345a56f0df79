// The input, of which a part is in memory.

ghost use Rattle.std.specs.Prelude.{◌≡◌, ◌≤◌, ◌-◌, false, length};

use std::io::Read;
use streams::Lost;

// The part in memory: the buffer begins with byte `base` of the input, and holds it up to `to`. What is before `from`
// is served. The input has ended, or more may come.
#[derive(Drop)]
pub(crate) struct Window<'a> {
    buffer: &'a mut [u8],
    base: u64,
    from: usize,
    to: usize,
    ended: bool,
    ghost in_order: { from ≤ to },
    ghost within: { to ≤ length buffer.now },
}

// Whether the field with which s begins is decided: it is whole, or malformed by its head, whatever follows. The head
// is read here, since `fields::head` gives none where the end cuts the body.
fn is_decided(s: &[u8]) -> bool {
    s.split_first_chunk::<3>().is_some_and(|(head, rest)| {
        let size = wire::pair(&head[1..]);
        !case_files::may_have(head[0], size) || size <= rest.len()
    })
}

// The byte of the input at a place of the buffer, which begins with byte b. No input is so long that it comes to 2^63.
fn place(b: u64, p: usize) -> u64 {
    if b < 1 << 63 {
        b.saturating_add(p as u64)
    } else {
        b
    }
}

impl<'a> Window<'a> {
    // Nothing is in memory yet.
    pub(crate) fn new(buffer: &'a mut [u8]) -> Window<'a>
        ensures { (result.base ≡ 0) × (result.from ≡ 0) × (result.to ≡ 0) × (result.ended ≡ false) }
    {
        Window {
            buffer,
            base: 0,
            from: 0,
            to: 0,
            ended: false,
        }
    }
}

impl Window<'_> {
    // What is not served.
    pub(crate) fn part(&self) -> &[u8]
        ensures { length result.now ≡ self.now.to - self.now.from }
    {
        &self.buffer[self.from..self.to]
    }

    // The byte of the input at which that begins.
    pub(crate) fn begins(&self) -> u64 {
        place(self.base, self.from)
    }

    // Whether more has to come before a field can be served.
    pub(crate) fn waits(&self) -> bool {
        !self.ended && !is_decided(self.part())
    }

    // The field with which the part begins is served.
    pub(crate) fn pass(&mut self) {
        self.from += fields::end(self.part());
    }

    // What is not served, moved to the front, and what one read gives behind it.
    pub(crate) fn refill(&mut self, rt: &impl Eprint, input: &mut impl Read) -> Result<(), Lost> {
        let left = self.to - self.from;
        self.base = place(self.base, self.from);
        self.buffer.copy_within(self.from..self.to, 0);
        self.from = 0;
        let more = streams::receive(rt, input, &mut self.buffer[left..], place(self.base, left))?;
        self.to = left + more.unwrap_or(0);
        self.ended = more.is_none();
        Ok(())
    }
}
