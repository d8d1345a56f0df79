// The fields of a case file: which tags there are, and which bodies they want.

#![tactic(auto)]

ghost use Rattle.std.specs.Prelude.{◌≡◌, IfOk, length, drop};
ghost use Rattle.wire.specs.Wire.{byte_at, pair_of};
ghost use Rattle.case_files.specs.CaseFiles.{is_way, is_condition, length_at, dot_field, point_field};
ghost use Rattle.case_files.specs.CaseFiles.{code_of, Decodes, tagged_field, may_have, read_of, Short};

// What is no field here: the tag is unknown, the body is not as the tag wants it, or the end of the input cuts it.
pub use fields::Malformed;

// A field by its kind, with the lengths that its body names. The vectors stay in the body, as bytes: they are floats
// once they are read.
#[derive(Clone, Copy)]
pub enum Field {
    // tag 16: a whole Hager-Zhang start
    StartWhole,
    // tag 32: a Hager-Zhang start
    StartHagerZhang,
    // tag 33: a backtracking start
    StartBacktracking,
    // tag 17: cost and slope
    Answer,
    // tag 34: of vectors with so many elements
    Dot(usize, usize),
    // tag 35: of x0, d and out with so many elements
    Point(usize, usize, usize),
}

// The kind of a field, by its tag alone.
#[derive(Clone, Copy)]
enum Tag {
    StartWhole,
    StartHagerZhang,
    StartBacktracking,
    Answer,
    Dot,
    Point,
}

impl TryFrom<u8> for Tag {
    type Error = Malformed;

    ghost try_from_gives = { Decodes };

    fn try_from(code: u8) -> Result<Self, Malformed> {
        match code {
            16 => Ok(Tag::StartWhole),
            17 => Ok(Tag::Answer),
            32 => Ok(Tag::StartHagerZhang),
            33 => Ok(Tag::StartBacktracking),
            34 => Ok(Tag::Dot),
            35 => Ok(Tag::Point),
            _ => Err(Malformed),
        }
    }
}

impl Tag {
    #[tactic(auto, unfolding(crate::specs::CaseFiles::may_have))]
    fn may_have(self, size: usize) -> bool
        ensures { result ≡ may_have (code_of self) size }
    {
        match self {
            Tag::StartWhole => size == 105,
            Tag::Answer => size == 16,
            Tag::StartHagerZhang => size == 96,
            Tag::StartBacktracking => size == 53,
            Tag::Dot | Tag::Point => size <= 8190,
        }
    }

    #[tactic(auto, unfolding(crate::specs::CaseFiles::tagged_field, crate::specs::CaseFiles::may_have))]
    fn field(self, body: &[u8], searching: bool) -> Result<Field, Malformed>
        ensures { result ≡ tagged_field (code_of self) body.now searching }
    {
        if !self.may_have(body.len()) {
            return Err(Malformed);
        }
        match self {
            Tag::StartWhole if has_way(body) => Ok(Field::StartWhole),
            Tag::Answer if searching => Ok(Field::Answer),
            Tag::StartHagerZhang => Ok(Field::StartHagerZhang),
            Tag::StartBacktracking if has_condition(body) => Ok(Field::StartBacktracking),
            Tag::Dot => dot_field(body),
            Tag::Point => point_field(body),
            _ => Err(Malformed),
        }
    }
}

// The byte is tested here, and read in the crate bodies, which gives any byte a way.
fn has_way(body: &[u8]) -> bool
    ensures { result ≡ is_way (byte_at body.now 96) }
{
    wire::byte(body, 96) <= 1
}

// As above, of a condition.
fn has_condition(body: &[u8]) -> bool
    ensures { result ≡ is_condition (byte_at body.now 0) }
{
    (1..=4).contains(&wire::byte(body, 0))
}

// The length of a vector, which the body names at this place.
fn vector_length(body: &[u8], at: usize) -> Result<usize, Malformed>
    ensures { result ≡ length_at body.now at }
{
    match wire::pair(wire::from(body, at)) {
        n @ 0..=511 => Ok(n),
        _ => Err(Malformed),
    }
}

#[tactic(auto, unfolding(crate::specs::CaseFiles::dot_field))]
fn dot_field(body: &[u8]) -> Result<Field, Malformed>
    ensures { result ≡ dot_field (length body.now) (pair_of body.now) (pair_of (drop 2 body.now)) }
{
    let n = vector_length(body, 0)?;
    let m = vector_length(body, 2)?;
    if body.len() == 4 + 8 * (n + m) {
        Ok(Field::Dot(n, m))
    } else {
        Err(Malformed)
    }
}

#[tactic(auto, unfolding(crate::specs::CaseFiles::point_field))]
fn point_field(body: &[u8]) -> Result<Field, Malformed>
    ensures { let s = body.now in
        result ≡ point_field (length s) (pair_of s) (pair_of (drop 2 s)) (pair_of (drop 4 s)) }
{
    let n = vector_length(body, 0)?;
    let m = vector_length(body, 2)?;
    let k = vector_length(body, 4)?;
    if body.len() == 14 + 8 * (n + m) {
        Ok(Field::Point(n, m, k))
    } else {
        Err(Malformed)
    }
}

// Whether a field with this tag, any number, may have a body of this size. Where it may not, the field is malformed by
// its head. It is no `Tag`, since `may_have` and the theorems on the window speak of any number.
#[tactic(auto, using(crate::proofs::Lengths::may_have_of_none))]
pub fn may_have(tag: u8, size: usize) -> bool
    ensures { result ≡ may_have tag size }
{
    Tag::try_from(tag).is_ok_and(|tag| tag.may_have(size))
}

// The field with which s begins; `searching` says whether answers may come. `Short` is a clause here and no fact of
// `Field`, which would want its proof wherever specs/ makes a field.
#[tactic(auto, using(crate::proofs::Lengths::tagged_field_of_none, crate::proofs::Lengths::field_short))]
pub fn read(s: &[u8], searching: bool) -> Result<Field, Malformed>
    ensures value { result ≡ read_of s.now searching }
    ensures lengths { IfOk result Short }
{
    let heading = fields::head(s).ok_or(Malformed)?;
    Tag::try_from(heading.tag)?.field(fields::body(s), searching)
}
