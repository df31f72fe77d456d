// The factor of a covariance matrix by Cholesky. Where the matrix is not positive definite or a standard error is not its root, what was factored before that fault.
ghost use Rattle.std.specs.Prelude.{◌≡◌, ◌*◌, ◌<◌, ◌≤◌, length};
ghost use Rattle.intervals.specs.Factor.{at, apart_of, disagrees_of, asymmetric_of, products_of, kept_of, diagonal_of, entry_of, row_of, line_of, factored_of};

// By rows, of up to eight estimates.
#[derive(Clone, Copy)]
struct Covariance<'a> {
    rows: &'a [f64],
    n: usize,
    ghost few: { n ≤ 8 },
    ghost square: { length rows.now ≡ n * n },
}

#[tactic(auto, unfolding(crate::specs::Factor::apart_of))]
fn apart(error: f64, root: f64) -> bool
    ensures { result ≡ apart_of error root }
{
    let larger = num::max(num::abs(error), root);
    1e-8 * larger < num::abs(error - root)
}

#[tactic(auto, unfolding(crate::specs::Factor::disagrees_of))]
fn disagrees(variance: f64, error: f64) -> bool
    ensures { result ≡ disagrees_of variance error }
{
    if variance <= 0.0 {
        return true;
    }
    if !num::is_finite(error) {
        return true;
    }
    if error <= 0.0 {
        return true;
    }
    apart(error, root::sqrt(variance))
}

#[tactic(auto, unfolding(crate::specs::Factor::asymmetric_of))]
fn asymmetric(a: f64, b: f64) -> bool
    ensures { result ≡ asymmetric_of a b }
{
    let larger = num::max(num::abs(a), num::abs(b));
    num::max(1e-12, 1e-10 * larger) < num::abs(a - b)
}

// The sum starts at plus zero.
fn products(lower: [f64; 64], i: usize, j: usize) -> f64
    requires row { i < 8 }
    requires column { j < 8 }
    ensures { result ≡ products_of lower i j }
{
    let mut sum = 0.0;
    // By place: two rows of one triangle, up to column j.
    for k in 0..j {
        sum = sum + lower[8 * i + k] * lower[8 * j + k];
    }
    sum
}

fn kept(lower: [f64; 64], i: usize, j: usize, x: f64) -> [f64; 64]
    requires row { i < 8 }
    requires column { j < 8 }
    ensures { result ≡ kept_of lower i j x }
{
    let mut lower = lower;
    lower[8 * i + j] = x;
    lower
}

#[tactic(auto, unfolding(crate::specs::Factor::diagonal_of))]
fn diagonal(lower: [f64; 64], i: usize, value: f64) -> Result<[f64; 64], [f64; 64]>
    requires { i < 8 }
    ensures { result ≡ diagonal_of lower i value }
{
    if !num::is_finite(value) {
        return Err(lower);
    }
    if value <= 0.0 {
        return Err(lower);
    }
    Ok(kept(lower, i, i, root::sqrt(value)))
}

impl Covariance<'_> {
    fn cell(&self, i: usize, j: usize) -> f64
        requires row { i < self.now.n }
        requires column { j < self.now.n }
        ensures { result ≡ at self.now.rows.now self.now.n i j }
    {
        self.rows[self.n * i + j]
    }

    // Only the lower triangle is factored: j is at most i.
    #[tactic(auto, unfolding(crate::specs::Factor::entry_of))]
    fn entry(&self, i: usize, j: usize, lower: [f64; 64]) -> Result<[f64; 64], [f64; 64]>
        requires row { i < self.now.n }
        requires column { j < self.now.n }
        ensures { result ≡ entry_of self.now.rows.now self.now.n i j lower }
    {
        let a = self.cell(i, j);
        if asymmetric(a, self.cell(j, i)) {
            return Err(lower);
        }
        let value = a - products(lower, i, j);
        if i == j {
            return diagonal(lower, i, value);
        }
        Ok(kept(lower, i, j, value / lower[8 * j + j]))
    }

    fn row(&self, i: usize, lower: [f64; 64]) -> Result<[f64; 64], [f64; 64]>
        requires { i < self.now.n }
        ensures { result ≡ row_of self.now.rows.now self.now.n i lower }
    {
        let mut lower = lower;
        // By place: row i of the triangle ends at its diagonal.
        for j in 0..i + 1 {
            lower = self.entry(i, j, lower)?;
        }
        Ok(lower)
    }

    #[tactic(auto, unfolding(crate::specs::Factor::line_of))]
    fn line(&self, i: usize, error: f64, lower: [f64; 64]) -> Result<[f64; 64], [f64; 64]>
        requires { i < self.now.n }
        ensures { result ≡ line_of self.now.rows.now self.now.n i error lower }
    {
        if disagrees(self.cell(i, i), error) {
            return Err(lower);
        }
        self.row(i, lower)
    }
}

// The lower triangle, in rows of eight places.
pub fn factored(covariance: &[f64], errors: &[f64]) -> Result<[f64; 64], [f64; 64]>
    requires few { length errors.now ≤ 8 }
    requires square { length covariance.now ≡ length errors.now * length errors.now }
    ensures { result ≡ factored_of covariance.now errors.now }
{
    let matrix = Covariance {
        rows: covariance,
        n: errors.len(),
    };
    let mut lower = [0.0; 64];
    for (i, error) in errors.iter().enumerate() {
        lower = matrix.line(i, *error, lower)?;
    }
    Ok(lower)
}
