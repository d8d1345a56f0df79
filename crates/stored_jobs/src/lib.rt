// 02's request 2: "Jobs without tag 2 relied on the old number. Our stored jobs get a field 2 written with the old
// bounds". The bytes of a stored job, with these.

#![tactic(auto)]

ghost use Rattle.std.specs.Prelude.{◌≡◌};
ghost use Rattle.text.specs.Text.{Writes};
ghost use Rattle.stored_jobs.specs.Kept.{relies, kept_of};

use text::Cursor;

// Whether the bytes are a job that has no field 2. Such a field would stand behind the curve's, which has four bytes.
fn relies(job: &[u8]) -> bool
    ensures { result ≡ relies job.now }
{
    jobs::read(job).is_ok() && wire::byte(job, 4) != 2
}

// Writes the job, with the old bounds as its field 2 where it has none. A job that has one, and bytes that are no job,
// are written as they are.
pub fn with_bounds(page: &mut Cursor, job: &[u8])
    ensures { Writes page.old (kept_of job.now) page.new }
{
    if relies(job) {
        page.word(&job[..4]);
        // tag 2, length 16; 2^-52, then 1e5
        page.word(b"\x02\0\x10\x3C\xB0\0\0\0\0\0\0\x40\xF8\x6A\0\0\0\0\0");
        page.word(wire::from(job, 4));
    } else {
        page.word(job);
    }
}
