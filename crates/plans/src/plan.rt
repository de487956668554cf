// The record of a plan.
ghost use Rattle.std.specs.Prelude.{◌≤◌};
ghost use Rattle.tables.specs.Shape.{Inside, Blank};
ghost use Rattle.plans.specs.Bounds.{Low, numbers_in};

pub mod calls;
pub mod searches;

// Its sizes, the struck pairs, the fitted pairs where there is a fit, and the last answer where there is one; rows past the units
// and bits past the bays are zero. Rows and bays lie in arrays of fixed length, and no `ArrayVec`: the calls copy them whole, and rely on
// the zeros.
#[derive(Drop)]
pub struct Plan {
    units: usize,
    bays: usize,
    struck: [u64; 24],
    fitted: Option<[u64; 24]>,
    last: Option<[u8; 24]>,
    ghost some_units: { 1 ≤ units },
    ghost few_units: { units ≤ 24 },
    ghost some_bays: { 1 ≤ bays },
    ghost few_bays: { bays ≤ 64 },
    ghost inside: { Inside bays struck },
    ghost blank: { Blank units struck },
    ghost fitted_inside: { Inside bays (numbers_in fitted) },
    ghost fitted_blank: { Blank units (numbers_in fitted) },
    ghost last_low: { Low bays (numbers_in last) },
    ghost last_blank: { Blank units (numbers_in last) },
}
