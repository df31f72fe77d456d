// `logs` at one number.
ghost use Rattle.std.specs.Prelude.{◌≡◌};
ghost use Rattle.elementary.specs.Log.{log_row_at};
ghost use Rattle.lanes.specs.LogParts.{log_chosen};

const P46: u64 = 0x4000_0000_0000;

const P52: u64 = 0x10_0000_0000_0000;

pub fn row(t: u64) -> tables::LogRow
    ensures { result ≡ log_row_at t }
{
    tables::log_lane_row(t % P52 / P46)
}

// v is the value by row.
#[tactic(auto, unfolding(crate::specs::LogParts::log_chosen))]
pub fn chosen(x: f64, v: f64) -> f64
    ensures { result ≡ log_chosen x v }
{
    if x < 2.2250738585072014e-308 {
        return elementary::log::log(x);
    }
    if x < num::infinity() {
        return v;
    }
    x
}
