// Parameters that passed their check.

ghost use Rattle.std.specs.Prelude.{◌≤◌};

use crate::DfnParams;

// A set of parameters whose polynomials have at most 16 coefficients.
#[derive(Clone, Copy)]
pub struct FitParams {
    pub params: DfnParams,
    pub ghost few: { (params.ocv_neg_count ≤ 16) × (params.ocv_pos_count ≤ 16) },
}
