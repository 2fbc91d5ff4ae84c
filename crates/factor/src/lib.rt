// The conversion factor C = (p/pb)·(Tb/T)·(1/K), in hundred-thousandths, to the nearest whole number.
// The fraction's numerator passes 64 bits, so it is divided in two steps, as by hand.
#![tactic(auto)]

ghost use Rattle.std.specs.Prelude.{◌≡◌, true, ◌*◌, ◌≤◌};
ghost use Rattle.factor.specs.Factor.{nearest_fraction, factor_of};
ghost use Rattle.factor.specs.Plan.{in_ranges, factor_guarded};

use ground::ranges;

// The numerator p·Tb·10^9 is (p·Tb·FIRST_STEP)·SECOND_STEP. The part in brackets fits 64 bits and is divided first; what is left over is
// then divided with SECOND_STEP.
const SECOND_STEP: u64 = 1000;

const FIRST_STEP: u64 = 100 * ranges::K_SCALE;

// Nearest to x·1000/d, halves up.
#[tactic(auto, using(crate::proofs::Division::parts, crate::proofs::Division::goes_up, crate::proofs::Division::goes_down))]
fn nearest(x: u64, d: u64) -> u64
    requires large { 2000 ≤ d }
    requires fits { d ≤ 9000000000000000 }
    ensures { result ≡ nearest_fraction (x * 1000) d }
{
    let b = x % d * SECOND_STEP;
    let q = x / d * SECOND_STEP + b / d;
    if d <= 2 * (b % d) { q + 1 } else { q }
}

// What goes into the factor: p and pb in pascals, Tb and T in hundredths of a kelvin, K in ten-thousandths.
#[derive(Clone, Copy)]
pub struct Inputs {
    pub p: u64,
    pub tb: u64,
    pub pb: u64,
    pub t: u64,
    pub k: u64,
}

impl Inputs {
    #[tactic(auto, unfolding(crate::specs::Plan::in_ranges, crate::specs::Plan::in_range))]
    fn in_ranges(self) -> bool
        ensures { result ≡ in_ranges self.p self.tb self.pb self.t self.k }
    {
        (ranges::LEAST_P..=ranges::MOST_P).contains(&self.p)
            && (ranges::LEAST_TB..=ranges::MOST_TB).contains(&self.tb)
            && (ranges::LEAST_PB..=ranges::MOST_PB).contains(&self.pb)
            && (ranges::LEAST_KELVIN..=ranges::MOST_KELVIN).contains(&self.t)
            && (ranges::LEAST_K..=ranges::MOST_K).contains(&self.k)
    }

    #[tactic(auto, using(crate::proofs::Ranges::products), unfolding(crate::specs::Factor::factor_of))]
    fn factor(self) -> u64
        requires { in_ranges self.p self.tb self.pb self.t self.k ≡ true }
        ensures { result ≡ factor_of self.p self.tb self.pb self.t self.k }
    {
        nearest(self.p * self.tb * FIRST_STEP, self.pb * self.t * self.k)
    }

    // The factor of a cycle. Outside the ranges of the inputs the products might not fit 64 bits, so it gives 0 there; a whole device never
    // asks that.
    #[tactic(auto, unfolding(crate::specs::Plan::factor_guarded))]
    pub fn factor_taken(self) -> u64
        ensures { result ≡ factor_guarded self.p self.tb self.pb self.t self.k }
    {
        if self.in_ranges() { self.factor() } else { 0 }
    }
}
