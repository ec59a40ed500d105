// Forms of unsigned numbers.
ghost use Rattle.std.specs.Prelude.{◌≡◌, ◌<◌, ◌≤◌, None, Some, IfOk, IfSome, IsErrOf};
ghost use Rattle.serde_json.specs.View.{view};
ghost use Rattle.sc_forms.specs.Forms.{below_form, at_most_form};

use crate::{Form, Misread};
use serde_json::Value;
use std::alloc::Global;

/// An unsigned number below a bound: digits without a sign, a fraction or an exponent.
#[derive(Clone, Copy, Debug, PartialEq, Eq)]
pub struct Below {
    pub bound: u64,
}

/// An unsigned number that is at most another: digits without a sign, a fraction or an exponent.
#[derive(Clone, Copy, Debug, PartialEq, Eq)]
pub struct AtMost {
    pub most: u64,
}

impl Below {
    // The number, where there is one below the bound.
    fn admit(&self, found: Option<u64>) -> Result<u64, Misread>
        ensures ok { IfOk result (λ n. (found ≡ Some n) × (n < self.now.bound)) }
        ensures not_of_form { IsErrOf result Misread.NotOfForm
            → IfSome found (λ n. self.now.bound ≤ n) }
        ensures memory { ¬ IsErrOf result Misread.NoMemory }
    {
        match found {
            Some(n) if n < self.bound => Ok(n),
            _ => Err(Misread::NotOfForm),
        }
    }
}

impl Form for Below {
    type Out = u64;

    ghost reads = { λ form. below_form form.bound };

    ghost fits = { λ form n. n < form.bound };

    /// It takes no memory.
    fn read(&self, _alloc: Global, value: &Value) -> Result<u64, Misread>
        ensures ok { IfOk result (λ n. below_form self.now.bound (view value.now) ≡ Some n) }
        ensures not_of_form { IsErrOf result Misread.NotOfForm
            → below_form self.now.bound (view value.now) ≡ None }
        ensures fits { IfOk result (λ n. n < self.now.bound) }
        ensures memory { ¬ IsErrOf result Misread.NoMemory }
    {
        self.admit(value.as_u64())
    }

    /// It takes no memory.
    // Called for each entry of a table, where a call of its own takes a twentieth of all time.
    #[inline(always)]
    fn take(&self, _alloc: Global, value: Value) -> Result<u64, Misread>
        ensures ok { IfOk result (λ n. below_form self.now.bound (view value) ≡ Some n) }
        ensures not_of_form { IsErrOf result Misread.NotOfForm
            → below_form self.now.bound (view value) ≡ None }
        ensures fits { IfOk result (λ n. n < self.now.bound) }
        ensures memory { ¬ IsErrOf result Misread.NoMemory }
    {
        match value {
            Value::Number(number) => self.admit(number.as_u64()),
            _ => Err(Misread::NotOfForm),
        }
    }
}

impl Form for AtMost {
    type Out = u64;

    ghost reads = { λ form. at_most_form form.most };

    ghost fits = { λ form n. n ≤ form.most };

    /// It takes no memory.
    fn read(&self, _alloc: Global, value: &Value) -> Result<u64, Misread>
        ensures ok { IfOk result (λ n. at_most_form self.now.most (view value.now) ≡ Some n) }
        ensures not_of_form { IsErrOf result Misread.NotOfForm
            → at_most_form self.now.most (view value.now) ≡ None }
        ensures fits { IfOk result (λ n. n ≤ self.now.most) }
        ensures memory { ¬ IsErrOf result Misread.NoMemory }
    {
        match value.as_u64() {
            Some(n) if n <= self.most => Ok(n),
            _ => Err(Misread::NotOfForm),
        }
    }
}
