// One bound between two readers.
// The constant is kept in natural numbers: `low + minus <= high + plus`, with one of both 0, in place of a signed one.
ghost use Rattle.std.specs.Prelude.{◌≡◌, ◌↔◌, ◌⊎◌, ◌≤◌, pos, negsuc, ◌+ℤ◌, ◌<ℤ◌, IsNone, IfSome};

use alta_codec::Form;
use std::marker::Model;

/// A bound: the location or previous location of reader `i` is at most that of reader `j`, plus a constant.
#[derive(Clone, Copy)]
pub struct Bound {
    form: Form,
    i: usize,
    j: usize,
    plus: u64,
    minus: u64,
}

impl Model for Bound {
    ghost use Rattle.std.specs.Prelude.{◌≤◌};
    ghost use Rattle.alta_codec.specs.Inequality.{Inequality};

    ghost Value = { Inequality };

    ghost view = { λ b. record { form = b.form; i = b.i; j = b.j; plus = b.plus; minus = b.minus } };

    ghost invariant = { λ b. (b.plus ≤ 1000000) × (b.minus ≤ 1000000) };

    ghost inverse = { λ v. record { form = v.form; i = v.i; j = v.j; plus = v.plus; minus = v.minus } };
}

impl Bound {
    /// The bound with the constant `k`. None exactly where `k` is not from -1,000,000 to 1,000,000.
    pub fn new(form: Form, i: usize, j: usize, k: i64) -> Option<Bound>
        ensures none { IsNone result ↔ ((k <ℤ negsuc 999999) ⊎ (pos 1000000 <ℤ k)) }
        ensures form { IfSome result (λ b. b.form ≡ form) }
        ensures sides { IfSome result (λ b. (b.i ≡ i) × (b.j ≡ j)) }
        ensures constant { IfSome result (λ b. pos b.plus ≡ pos b.minus +ℤ k) }
        ensures one_sign { IfSome result (λ b. (b.plus ≡ 0) ⊎ (b.minus ≡ 0)) }
    {
        if k < -1_000_000 || k > 1_000_000 {
            return None;
        }
        if k >= 0 {
            Some(Bound {
                form,
                i,
                j,
                plus: k as u64,
                minus: 0,
            })
        } else {
            Some(Bound {
                form,
                i,
                j,
                plus: 0,
                minus: (-k) as u64,
            })
        }
    }

    /// Which sides it compares.
    pub fn form(&self) -> Form
        ensures { result ≡ self.now.form }
    {
        self.form
    }

    /// The reader that is bounded.
    pub fn i(&self) -> usize
        ensures { result ≡ self.now.i }
    {
        self.i
    }

    /// The reader that bounds it.
    pub fn j(&self) -> usize
        ensures { result ≡ self.now.j }
    {
        self.j
    }

    /// The constant where it is positive, else 0.
    pub fn plus(&self) -> u64
        ensures value { result ≡ self.now.plus }
        ensures limit { result ≤ 1000000 }
    {
        self.plus
    }

    /// What the constant is below 0, else 0.
    pub fn minus(&self) -> u64
        ensures value { result ≡ self.now.minus }
        ensures limit { result ≤ 1000000 }
    {
        self.minus
    }
}
