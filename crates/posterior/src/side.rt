// The two sides of the mode. What the source writes once for each side is written once here.
ghost use Rattle.std.specs.Prelude.{◌≡◌};
ghost use Rattle.posterior.specs.Side.{first_of, rises_of, flat_of, steep_of, outward_of};

#[derive(Clone, Copy)]
pub enum Side {
    Left,
    Right,
}

// A place on either side of the mode.
#[derive(Clone, Copy)]
pub struct Ends {
    pub left: f64,
    pub right: f64,
}

impl Side {
    // Where the bracket of a side starts.
    pub fn first(self) -> f64
        ensures { result ≡ first_of self }
    {
        match self {
            Side::Left => -1.0,
            Side::Right => 1.0,
        }
    }

    // Whether the density still rises toward the mode where its slope is d.
    pub fn rises(self, d: f64) -> bool
        ensures { result ≡ rises_of self d }
    {
        match self {
            Side::Left => d > 0.0,
            Side::Right => d < 0.0,
        }
    }

    // The slope toward the mode.
    pub fn steep(self, d: f64) -> f64
        ensures { result ≡ steep_of self d }
    {
        match self {
            Side::Left => d,
            Side::Right => -d,
        }
    }

    pub fn outward(self, mode: f64, step: f64) -> f64
        ensures { result ≡ outward_of self mode step }
    {
        match self {
            Side::Left => mode - step,
            Side::Right => mode + step,
        }
    }

    // Whether a side's end does not hold: the slope there is zero or away from the mode.
    pub fn flat(self, d: f64) -> bool
        ensures { result ≡ flat_of self d }
    {
        match self {
            Side::Left => d <= 0.0,
            Side::Right => 0.0 <= d,
        }
    }
}
