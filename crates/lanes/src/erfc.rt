// `erfcs` at one number. A row has thirteen numbers: each is read where it is used, and none is stored on the way.
ghost use Rattle.std.specs.Prelude.{◌≡◌};
ghost use Rattle.lanes.specs.ErfcParts.{erfc_by_row, erfc_chosen};

#[tactic(auto, unfolding(crate::specs::ErfcParts::erfc_by_row))]
pub fn by_row(x: f64, m: u64) -> f64
    ensures { result ≡ erfc_by_row x m }
{
    elementary::erfc::at_row(tables::erfc_lane_row(m), x)
}

// v is the value by row.
#[tactic(auto, unfolding(crate::specs::ErfcParts::erfc_chosen))]
pub fn chosen(x: f64, v: f64) -> f64
    ensures { result ≡ erfc_chosen x v }
{
    if elementary::erfc::has_row(x) {
        return v;
    }
    elementary::erfc::erfc_pos(x)
}
