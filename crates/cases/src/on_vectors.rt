// Vectors: a dot and a point, and the lines that show them.

ghost use Rattle.std.specs.Prelude.{◌≤◌};

use text::Cursor;

pub(crate) fn dot(page: &mut Cursor, body: &[u8], n: usize, m: usize)
    requires { (n ≤ 511) × (m ≤ 511) }
{
    let mut a = [0.0; 511];
    let mut b = [0.0; 511];
    let a = &mut a[..n];
    let b = &mut b[..m];
    bodies::floats(body, 4, a);
    bodies::floats(body, 4 + 8 * n, b);
    match vectors::dot(a, b) {
        Ok(v) => case_lines::value(page, v),
        Err(refusal) => case_lines::fault(page, refusal),
    }
}

// The buffer is filled before the call, so that it shows what the call wrote.
pub(crate) fn point(page: &mut Cursor, body: &[u8], n: usize, m: usize, k: usize)
    requires { (n ≤ 511) × (m ≤ 511) × (k ≤ 511) }
{
    let mut x0 = [0.0; 511];
    let mut d = [0.0; 511];
    let mut buffer = [f64::INFINITY; 511];
    let x0 = &mut x0[..n];
    let d = &mut d[..m];
    let buffer = &mut buffer[..k];
    bodies::floats(body, 14, x0);
    bodies::floats(body, 14 + 8 * n, d);
    let alpha = wire::float(wire::from(body, 6));
    match vectors::point(x0, alpha, d, buffer) {
        Ok(()) => page.word(b"POINT\n"),
        Err(refusal) => case_lines::fault(page, refusal),
    }
    case_lines::buffer(page, buffer);
}
