// Tagged fields in bytes: one-byte tag, two-byte length, body, most significant byte first. What tags there are, how
// long their bodies may be and in which order they come is for the reader of a job or of a case file to say.

#![tactic(auto)]

ghost use Rattle.std.specs.Prelude.{◌≡◌, ◌+◌, ◌≤◌, IfSome, length};
ghost use Rattle.fields.specs.Fields.{head_of, body_of, end_of};

// The bytes are no field, or none that may stand there.
#[derive(Clone, Copy, Debug, PartialEq, Eq)]
pub struct Malformed;

// What the head of a whole field says: its tag, and the length of its body.
#[derive(Clone, Copy)]
pub struct Heading {
    pub tag: u8,
    pub size: usize,
}

// The head of the field with which s begins; none where the bytes end within the field.
pub fn head(s: &[u8]) -> Option<Heading>
    ensures value { result ≡ head_of s.now }
    ensures within { IfSome result (λ h. 3 + h.size ≤ length s.now) }
{
    let (front, rest) = s.split_first_chunk::<3>()?;
    let size = wire::pair(&front[1..]);
    (size <= rest.len()).then_some(Heading {
        tag: front[0],
        size,
    })
}

// The body of the field with which s begins, a part of s; nothing where it is cut. It is no Option, since `body_of`
// gives any bytes a body.
pub fn body(s: &[u8]) -> &[u8]
    ensures { result.now ≡ body_of s.now }
{
    let Some(heading) = head(s) else {
        return &s[..0];
    };
    &s[3..3 + heading.size]
}

// The place behind the field with which s begins; the end of s where it is cut, which `end_of` says too.
pub fn end(s: &[u8]) -> usize
    ensures value { result ≡ end_of s.now }
    ensures upper_bound { result ≤ length s.now }
{
    head(s).map_or(s.len(), |heading| 3 + heading.size)
}
