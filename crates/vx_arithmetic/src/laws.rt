// The laws of the arithmetic of 32-bit numbers: each function does nothing, and its clause is the law.

ghost use Rattle.vx_base.specs.Arithmetic.{DivisionLaw, IndexCheck, ProductByHalves, ValueFits, WrapReduces, WrapsAlike};

/// A product is the sum of what the two half multiplications give.
#[tactic(auto, using(vx_base::proofs::ArithmeticLaws::product_by_halves_law))]
pub fn product_by_halves()
    ensures { ProductByHalves }
{}

/// Every result is a number of 32 bits.
#[tactic(auto, using(vx_base::proofs::ArithmeticLaws::value_fits_law))]
pub fn value_fits()
    ensures { ValueFits }
{}

/// A reduction gives the number of 32 bits that differs by a multiple of 2 ^ 32.
pub fn wrap_reduces()
    ensures { WrapReduces }
{}

/// Two numbers are reduced alike exactly where they differ by a multiple of 2 ^ 32.
#[tactic(auto, using(vx_base::proofs::WrapLaws::wraps_alike_law))]
pub fn wraps_alike()
    ensures { WrapsAlike }
{}

/// Quotient times divisor plus remainder is the dividend, where the divisor is not 0.
#[tactic(auto, using(vx_base::proofs::ArithmeticLaws::division_holds))]
pub fn division_law()
    ensures { DivisionLaw }
{}

/// One compare without sign with a size tells the indices from 0 below it.
#[tactic(auto, using(vx_base::proofs::ArithmeticLaws::index_check_law))]
pub fn index_check()
    ensures { IndexCheck }
{}
