//! Arithmetic on integers of 64 bits.
ghost use Rattle.std.specs.Prelude.{◌≡◌, ◌+ℤ◌, ◌-ℤ◌, ◌*ℤ◌, neg_ℤ, int_div, int_rem};
ghost use Rattle.herm_forms.specs.Evaluate.{within_bits, by_divisor};
ghost use Rattle.herm_stack.specs.Answers.{evaluated, checked};

use crate::answers::Evaluation;
use herm_base::ExcNo;

/// Arithmetic that left the 64 bits, or a divisor of 0.
const OVERFLOW: ExcNo = ExcNo(0);

/// The number, and Overflow where there is none.
fn checked(n: Option<i64>) -> Evaluation
    ensures { evaluated result ≡ checked n }
{
    match n {
        Some(n) => Evaluation::Integer(n),
        None => Evaluation::Raises(OVERFLOW),
    }
}

/// A number of 64 bits is one of the model.
#[tactic(auto, using(crate::proofs::Checked::within_fits))]
fn fitting(n: i64) -> Evaluation
    ensures { evaluated result ≡ within_bits n }
{
    Evaluation::Integer(n)
}

#[tactic(auto, using(crate::proofs::Checked::checked_fits))]
pub fn sum(y: i64, z: i64) -> Evaluation
    ensures { evaluated result ≡ within_bits (y +ℤ z) }
{
    checked(y.checked_add(z))
}

#[tactic(auto, using(crate::proofs::Checked::checked_fits))]
pub fn difference(y: i64, z: i64) -> Evaluation
    ensures { evaluated result ≡ within_bits (y -ℤ z) }
{
    checked(y.checked_sub(z))
}

#[tactic(auto, using(crate::proofs::Checked::checked_fits))]
pub fn product(y: i64, z: i64) -> Evaluation
    ensures { evaluated result ≡ within_bits (y *ℤ z) }
{
    checked(y.checked_mul(z))
}

#[tactic(auto, using(crate::proofs::Checked::checked_fits))]
pub fn negated(z: i64) -> Evaluation
    ensures { evaluated result ≡ within_bits (neg_ℤ z) }
{
    checked(z.checked_neg())
}

/// Rounds toward zero. Overflow where the divisor is 0, and where the least integer is divided by -1.
#[tactic(auto, using(crate::proofs::Checked::divisions))]
pub fn quotient(y: i64, z: i64) -> Evaluation
    ensures { evaluated result ≡ by_divisor int_div y z }
{
    if z == 0 {
        return checked(None);
    }
    checked(y.checked_div(z))
}

/// What `div` leaves over. Overflow where the divisor is 0; by -1 nothing is left over, of the least integer too.
#[tactic(auto, using(crate::proofs::Checked::divisions))]
pub fn remainder(y: i64, z: i64) -> Evaluation
    ensures { evaluated result ≡ by_divisor int_rem y z }
{
    if z == 0 {
        return checked(None);
    }
    if z == -1 {
        return fitting(0);
    }
    fitting(y % z)
}
