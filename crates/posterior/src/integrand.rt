// Evaluations of the integrand, counted against a limit that is tested before each.
ghost use Rattle.std.specs.Prelude.{◌≡◌};
ghost use Rattle.work.specs.Work.{eval};
ghost use Rattle.work.specs.Answer.{Did};
ghost use Rattle.posterior.specs.Integrand.{weighed_of, integrand_of, at, here};

use work::{Meter, Refusal};

const LOG_TWO_PI: f64 = 1.8378770664093453;

// A litter, by its position and its numbers, and the mean and spread it is taken at.
#[derive(Clone, Copy)]
pub struct Posterior {
    pub litter: u64,
    pub successes: u32,
    pub total: u32,
    pub mean: f64,
    pub sd: f64,
}

// The logarithm of the integrand, its slope and its curvature (the second derivative with its sign turned), and the moments.
#[derive(Clone, Copy)]
pub struct Point {
    pub log: f64,
    pub slope: f64,
    pub curvature: f64,
    pub moments: [f64; 6],
}

fn weighed(sd: f64, z: f64, c: normal::ConditionalLog) -> Point
    ensures { result ≡ weighed_of sd z c }
{
    let moments = c.moments;
    Point {
        log: c.log - 0.5 * z * z - 0.5 * LOG_TWO_PI,
        slope: sd * c.score - z,
        curvature: 1.0 - sd * sd * c.curvature,
        moments,
    }
}

pub fn integrand(successes: u32, total: u32, mean: f64, sd: f64, z: f64) -> Point
    ensures { result ≡ integrand_of successes total mean sd z }
{
    let c = normal::conditional(mean + sd * z, successes, total);
    weighed(sd, z, c)
}

impl Posterior {
    pub fn evaluate(self, z: f64, meter: &mut Meter) -> Result<Point, Refusal>
        ensures { Did at (eval (here self z)) meter.old result meter.new }
    {
        meter.count()?;
        Ok(integrand(self.successes, self.total, self.mean, self.sd, z))
    }
}
