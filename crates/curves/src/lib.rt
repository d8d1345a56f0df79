// 01's eight sample curves: polynomials of degree 4, by a fixed table of coefficients.

#![tactic(auto)]

ghost use Rattle.std.specs.Prelude.{◌≡◌};
ghost use Rattle.curves.specs.Curves.{curve_of_row, value_of, slope_of};
ghost use Rattle.curves.specs.Told.{NumberedSaid};

use refusals::Refusal;

// How many there are. Their numbers count from 1.
pub const COUNT: u32 = 8;

// c0 to c4 of each.
const TABLE: [[i8; 5]; 8] = [
    [1, -2, 1, 0, 0],
    [9, -6, 1, 0, 0],
    [0, -1, 0, 0, 0],
    [0, 0, 0, 0, 0],
    [0, -8, 0, 0, 1],
    [2, -3, 0, 1, 0],
    [5, -4, -2, 0, 1],
    [0, 1, -1, 0, 0],
];

#[derive(Clone, Copy)]
pub struct Curve {
    pub c0: f64,
    pub c1: f64,
    pub c2: f64,
    pub c3: f64,
    pub c4: f64,
}

// 01: "small signed integers cast to f64 where nothing is lost".
impl From<[i8; 5]> for Curve {
    ghost from_gives = { λ row c. c ≡ curve_of_row row };

    fn from([c0, c1, c2, c3, c4]: [i8; 5]) -> Curve {
        Curve {
            c0: f64::from(c0),
            c1: f64::from(c1),
            c2: f64::from(c2),
            c3: f64::from(c3),
            c4: f64::from(c4),
        }
    }
}

// The curve with this number.
pub fn numbered(n: u32) -> Result<Curve, Refusal>
    ensures { NumberedSaid n result }
{
    match n {
        1..=COUNT => Ok(Curve::from(TABLE[n as usize - 1])),
        _ => Err(Refusal::OutOfRange),
    }
}

impl Curve {
    // The cost at x. 01: "Value: (((c4*x+c3)*x+c2)*x+c1)*x+c0."
    pub fn value(self, x: f64) -> f64
        ensures { result ≡ value_of self x }
    {
        (((self.c4 * x + self.c3) * x + self.c2) * x + self.c1) * x + self.c0
    }

    // The slope at x. 01: "Slope: ((4c4*x+3c3)*x+2c2)*x+c1."
    pub fn slope(self, x: f64) -> f64
        ensures { result ≡ slope_of self x }
    {
        ((4.0 * self.c4 * x + 3.0 * self.c3) * x + 2.0 * self.c2) * x + self.c1
    }
}
