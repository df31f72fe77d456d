// The root of a whole number, drawn as on paper. A step writes one row of the table, and the root gets one digit.
ghost use Rattle.std.specs.Prelude.{◌≡◌, ◌*◌, ◌^◌, ◌≤◌, ◌<◌};
ghost use Rattle.root.specs.Steps.{start_of, step_of, pencil_of};

// `coming` has 54 digits, the next two to bring down on top.
#[derive(Clone, Copy)]
pub struct Row {
    pub coming: u64,
    pub down: u64,
    pub brought: u64,
    pub trial: u64,
    pub digit: u64,
    pub rest: u64,
    pub root: u64,
}

// Before the first step.
pub fn start(m: u64) -> Row
    ensures { result ≡ start_of m }
{
    Row {
        coming: m,
        down: 0,
        brought: 0,
        trial: 0,
        digit: 0,
        rest: 0,
        root: 0,
    }
}

pub fn step(row: Row) -> Row
    requires coming_fits { row.coming < 2 ^ 54 }
    requires rest_small { row.rest ≤ 2 * row.root }
    requires root_fits { row.root < 2 ^ 54 }
    ensures { result ≡ step_of row }
{
    let down = row.coming / 0x10_0000_0000_0000;
    let brought = 4 * row.rest + down;
    let trial = 4 * row.root + 1;
    let goes = trial <= brought;
    let digit = u64::from(goes);
    let taken = if goes { trial } else { 0 };
    Row {
        coming: row.coming % 0x10_0000_0000_0000 * 4,
        down,
        brought,
        trial,
        digit,
        rest: brought - taken,
        root: 2 * row.root + digit,
    }
}

// All 54 digits.
pub fn root_of(m: u64) -> u64
    requires { m < 2 ^ 54 }
    ensures { result ≡ pencil_of m }
{
    let mut row = start(m);
    for k in 0..54u64 {
        row = step(row);
    }
    row.root
}
