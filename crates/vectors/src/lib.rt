// 01's vector routines: dot and scaled point. Any input gets an answer, and no caller owes anything.

#![tactic(auto)]

ghost use Rattle.std.specs.Prelude.{◌≡◌, ◌<◌, ◌||◌, ◌&&◌, false, not, eqb, length, OnOk, IfOk};
ghost use Rattle.std.specs.Float.Ieee.Scale.{finite};
ghost use Rattle.vectors.specs.Faults.{first, FirstFound};
ghost use Rattle.vectors.specs.Vectors.{bad_length, all_finite, bad, bad_in_any, products, left_sum, sum_bad, moved};
ghost use Rattle.vectors.specs.Told.{number_of, CheckSaid, DotSaid, PointSaid};

// Why vectors are refused, in the order in which the reasons are tried. An index counts from 0; if several vectors are
// bad there, none is named.
#[derive(Clone, Copy, Debug, PartialEq, Eq)]
pub enum Refusal {
    // a length is 0 or above 256, or the lengths differ
    Lengths,
    // a number that was supplied is a NaN or an infinity: the first index at which a vector has one, or for a bad alpha
    // alone the vectors' length
    SuppliedNotFinite(usize),
    // the dot, or an element of the point, comes out a NaN or an infinity: the first index whose partial sum or element
    // does
    ResultNotFinite(usize),
}

impl Refusal {
    // The number by which 01 knows the refusal. The cases carry an index, so it is no cast.
    pub fn number(self) -> u32
        ensures { result ≡ number_of self }
    {
        match self {
            Refusal::Lengths => 1,
            Refusal::SuppliedNotFinite(_) => 2,
            Refusal::ResultNotFinite(_) => 4,
        }
    }
}

// Whether a vector may not have n elements.
fn bad_length(n: usize) -> bool
    ensures { result ≡ bad_length n }
{
    (n == 0) | (256 < n)
}

// Two vectors of the same length, from 1 to 256 elements. Both facts are those that its methods need.
#[derive(Clone, Copy)]
struct Pair<'a> {
    xs: &'a [f64],
    ys: &'a [f64],
    ghost alike: { length xs.now ≡ length ys.now },
    ghost some: { 0 < length xs.now },
}

impl<'a> Pair<'a> {
    // Takes xs and ys as a pair, or refuses their lengths.
    fn new(xs: &'a [f64], ys: &'a [f64]) -> Result<Pair<'a>, Refusal>
        ensures said { CheckSaid (bad_length (length xs.now) || not (eqb (length xs.now) (length ys.now)))
            Refusal.Lengths result }
        ensures same { IfOk result (λ pair. (pair.xs.now ≡ xs.now) × (pair.ys.now ≡ ys.now)) }
    {
        if bad_length(xs.len()) || xs.len() != ys.len() {
            return Err(Refusal::Lengths);
        }
        Ok(Pair { xs, ys })
    }

    // The first index at which either vector is not finite.
    fn first_bad(self) -> Option<usize>
        ensures { FirstFound (bad_in_any self.entry.xs.now self.entry.ys.now) (length self.entry.xs.now) result }
    {
        self.xs
            .iter()
            .zip(self.ys)
            .position(|(x, y)| !numbers::both_finite(*x, *y))
    }

    // Refuses vectors of which either has a number that is not finite.
    fn check_supplied(self) -> Result<(), Refusal>
        ensures said { let i = first (bad_in_any self.entry.xs.now self.entry.ys.now) (length self.entry.xs.now) in
            CheckSaid (not (all_finite self.entry.xs.now && all_finite self.entry.ys.now))
            (Refusal.SuppliedNotFinite i) result }
        ensures none_bad { OnOk result
            (first (bad_in_any self.entry.xs.now self.entry.ys.now) (length self.entry.xs.now)
            ≡ length self.entry.xs.now) }
    {
        match self.first_bad() {
            Some(i) => Err(Refusal::SuppliedNotFinite(i)),
            None => Ok(()),
        }
    }

    // 01: "Dot adds products from the left, starting with the first product." Of a `reduce` and of a `fold` over the
    // pairs the check found no proof. A dot that is finite looks at no partial sum, which `first_overflow` does.
    fn left_sum(self) -> f64
        ensures { result ≡ left_sum (products self.entry.xs.now self.entry.ys.now) }
    {
        let Pair { xs, ys } = self;
        let mut s = xs[0] * ys[0];
        for i in 1..xs.len() {
            s += xs[i] * ys[i];
        }
        s
    }

    // The first index whose partial sum is not finite, of a dot that is not. Once a partial sum is not finite, no later
    // one is, so the sum alone is looked at first, and this only where it is not finite.
    // No plainer in one with `left_sum`: clauses and invariant would speak of a closure at each partial sum.
    fn first_overflow(self) -> usize
        requires { finite (left_sum (products self.xs.now self.ys.now)) ≡ false }
        ensures { result ≡ first (sum_bad (products self.entry.xs.now self.entry.ys.now)) (length self.entry.xs.now) }
    {
        let Pair { xs, ys } = self;
        let mut sum = xs[0] * ys[0];
        for i in 1..xs.len() {
            if !numbers::is_finite(sum) {
                return i - 1;
            }
            sum += xs[i] * ys[i];
        }
        xs.len() - 1
    }

    // The first index at which x + alpha * y is not finite.
    // No plainer in one with `first_bad`: the clause of a search that takes the test as a closure is longer than both.
    #[tactic(auto, using(crate::proofs::Elements::moved_at))]
    fn first_bad_moved(self, alpha: f64) -> Option<usize>
        ensures { FirstFound (bad (moved self.entry.xs.now alpha self.entry.ys.now)) (length self.entry.xs.now) result }
    {
        self.xs
            .iter()
            .zip(self.ys)
            .position(|(x, y)| !numbers::is_finite(*x + alpha * *y))
    }

    // 01: "A point is x0[i] + alpha*d[i]."
    fn write_moved(self, alpha: f64, out: &mut [f64])
        requires { length self.xs.now ≡ length out.old }
        ensures { out.new ≡ moved self.entry.xs.now alpha self.entry.ys.now }
    {
        for (i, x) in out.iter_mut().enumerate() {
            *x = self.xs[i] + alpha * self.ys[i];
        }
    }
}

// The dot of a and b, or the first refusal that applies.
pub fn dot(a: &[f64], b: &[f64]) -> Result<f64, Refusal>
    ensures { DotSaid a.now b.now result }
{
    let pair = Pair::new(a, b)?;
    pair.check_supplied()?;
    let s = pair.left_sum();
    if numbers::is_finite(s) {
        Ok(s)
    } else {
        Err(Refusal::ResultNotFinite(pair.first_overflow()))
    }
}

// Writes the point x0 + alpha * d to out; or leaves out as it is, and tells the first refusal that applies. 01: "A
// scaled point checks all elements before it writes any."
pub fn point(x0: &[f64], alpha: f64, d: &[f64], out: &mut [f64]) -> Result<(), Refusal>
    ensures { PointSaid x0.now alpha d.now out.old result out.new }
{
    let n = x0.len();
    let pair = Pair::new(x0, d)?;
    if out.len() != n {
        return Err(Refusal::Lengths);
    }
    pair.check_supplied()?;
    if !numbers::is_finite(alpha) {
        return Err(Refusal::SuppliedNotFinite(n));
    }
    if let Some(k) = pair.first_bad_moved(alpha) {
        return Err(Refusal::ResultNotFinite(k));
    }
    pair.write_moved(alpha, out);
    Ok(())
}
