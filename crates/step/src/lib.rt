// `project`, `norm`, the direction and the candidate of the source. Coordinates are two means, then two variances; the Hessian stands by rows.
#![tactic(auto)]

ghost use Rattle.std.specs.Prelude.{◌≡◌, ◌<◌};
ghost use Rattle.step.specs.Step.{project_at_of, project_of, norm_of, damping_of, newton_of, held_of, alone_of, group_step_of, finite_four_of, dot_of, safe_of, direction_of, candidate_of, slope_of, still_of};

// The box of a descent: the lowest and the highest value of each coordinate.
#[derive(Clone, Copy)]
pub struct Region {
    pub lo: [f64; 4],
    pub hi: [f64; 4],
}

// A group's step.
#[derive(Clone, Copy)]
pub struct Move {
    pub mean: f64,
    pub variance: f64,
}

fn project_at(x: f64, g: f64, lo: f64, hi: f64) -> f64
    ensures { result ≡ project_at_of x g lo hi }
{
    if num::both(x == lo, g > 0.0) {
        return 0.0;
    }
    if num::both(x == hi, g < 0.0) {
        return 0.0;
    }
    g
}

#[tactic(auto, unfolding(crate::specs::Step::norm_of))]
pub fn norm(g: [f64; 4]) -> f64
    ensures { result ≡ norm_of g }
{
    let a = num::max(0.0, num::abs(g[0]));
    let b = num::max(a, num::abs(g[1]));
    let c = num::max(b, num::abs(g[2]));
    num::max(c, num::abs(g[3]))
}

#[tactic(auto, unfolding(crate::specs::Step::damping_of))]
fn damping(a: f64, b: f64, c: f64) -> f64
    ensures { result ≡ damping_of a b c }
{
    let smallest = 0.5 * (a + b - elementary::hypot::hypot(a - b, 2.0 * c));
    let large = num::max(num::abs(a), num::abs(b));
    num::max(1e-6 * (1.0 + large) - smallest, 0.0)
}

#[tactic(auto, unfolding(crate::specs::Step::newton_of))]
fn newton(a: f64, b: f64, c: f64, g: f64, h: f64) -> Move
    ensures { result ≡ newton_of a b c g h }
{
    let d = damping(a, b, c);
    let p = a + d;
    let q = b + d;
    let det = p * q - c * c;
    if num::both(det > 0.0, num::is_finite(det)) {
        return Move {
            mean: (-q * g + c * h) / det,
            variance: (c * g - p * h) / det,
        };
    }
    Move {
        mean: -g,
        variance: -h,
    }
}

fn held(x: f64, g: f64, lo: f64, hi: f64) -> bool
    ensures { result ≡ held_of x g lo hi }
{
    num::both(g == 0.0, num::either(x == lo, x == hi))
}

#[tactic(auto, unfolding(crate::specs::Step::alone_of))]
fn alone(first: bool, second: bool, a: f64, b: f64, g: f64, h: f64, m: Move) -> Move
    ensures { result ≡ alone_of first second a b g h m }
{
    if second {
        return Move {
            mean: -g / num::max(a, 1.0),
            variance: 0.0,
        };
    }
    if first {
        return Move {
            mean: 0.0,
            variance: -h / num::max(b, 1.0),
        };
    }
    m
}

fn finite_four(d: [f64; 4]) -> bool
    ensures { result ≡ finite_four_of d }
{
    let a = num::both(num::is_finite(d[2]), num::is_finite(d[3]));
    num::both(num::is_finite(d[0]), num::both(num::is_finite(d[1]), a))
}

fn dot(g: [f64; 4], d: [f64; 4]) -> f64
    ensures { result ≡ dot_of g d }
{
    num::sum(&[g[0] * d[0], g[1] * d[1], g[2] * d[2], g[3] * d[3]])
}

#[tactic(auto, unfolding(crate::specs::Step::safe_of))]
fn safe(g: [f64; 4], d: [f64; 4]) -> [f64; 4]
    ensures { result ≡ safe_of g d }
{
    let finite = finite_four(d);
    if num::either(!finite, 0.0 <= dot(g, d)) {
        return [-g[0], -g[1], -g[2], -g[3]];
    }
    d
}

impl Region {
    #[tactic(auto, unfolding(crate::specs::Step::project_of))]
    pub fn project(self, x: [f64; 4], g: [f64; 4]) -> [f64; 4]
        ensures { result ≡ project_of x g self.lo self.hi }
    {
        let a = project_at(x[0], g[0], self.lo[0], self.hi[0]);
        let b = project_at(x[1], g[1], self.lo[1], self.hi[1]);
        let c = project_at(x[2], g[2], self.lo[2], self.hi[2]);
        let d = project_at(x[3], g[3], self.lo[3], self.hi[3]);
        [a, b, c, d]
    }

    fn group_step(self, x: [f64; 4], g: [f64; 4], hessian: [f64; 16], i: usize) -> Move
        requires { i < 2 }
        ensures { result ≡ group_step_of x g hessian self.lo self.hi i }
    {
        let j = i + 2;
        let k = 5 * i;
        let a = hessian[k];
        let b = hessian[k + 10];
        let c = hessian[k + 2];
        let first = held(x[i], g[i], self.lo[i], self.hi[i]);
        let second = held(x[j], g[j], self.lo[j], self.hi[j]);
        let m = newton(a, b, c, g[i], g[j]);
        alone(first, second, a, b, g[i], g[j], m)
    }

    #[tactic(auto, unfolding(crate::specs::Step::direction_of))]
    pub fn direction(self, x: [f64; 4], g: [f64; 4], hessian: [f64; 16]) -> [f64; 4]
        ensures { result ≡ direction_of x g hessian self.lo self.hi }
    {
        let a = self.group_step(x, g, hessian, 0);
        let b = self.group_step(x, g, hessian, 1);
        safe(g, [a.mean, b.mean, a.variance, b.variance])
    }

    #[tactic(auto, unfolding(crate::specs::Step::candidate_of))]
    pub fn candidate(self, x: [f64; 4], d: [f64; 4], alpha: f64) -> [f64; 4]
        ensures { result ≡ candidate_of x d alpha self.lo self.hi }
    {
        let a = num::clamp(x[0] + alpha * d[0], self.lo[0], self.hi[0]);
        let b = num::clamp(x[1] + alpha * d[1], self.lo[1], self.hi[1]);
        let c = num::clamp(x[2] + alpha * d[2], self.lo[2], self.hi[2]);
        let e = num::clamp(x[3] + alpha * d[3], self.lo[3], self.hi[3]);
        [a, b, c, e]
    }
}

#[tactic(auto, unfolding(crate::specs::Step::slope_of))]
pub fn slope(gradient: [f64; 4], next: [f64; 4], x: [f64; 4]) -> f64
    ensures { result ≡ slope_of gradient next x }
{
    let a = gradient[0] * (next[0] - x[0]);
    let b = gradient[1] * (next[1] - x[1]);
    let c = gradient[2] * (next[2] - x[2]);
    let d = gradient[3] * (next[3] - x[3]);
    num::sum(&[a, b, c, d])
}

#[tactic(auto, unfolding(crate::specs::Step::still_of))]
pub fn still(next: [f64; 4], x: [f64; 4]) -> bool
    ensures { result ≡ still_of next x }
{
    let a = num::both(next[2] == x[2], next[3] == x[3]);
    num::both(next[0] == x[0], num::both(next[1] == x[1], a))
}
