// What a form is, and the members of an object.
ghost use Rattle.std.specs.Prelude.{◌≡◌, ⊤, Option, None, Some, Err, IfOk, IsErrOf};
ghost use Rattle.serde_json.specs.Data.{Data};
ghost use Rattle.serde_json.specs.Find.{get};
ghost use Rattle.serde_json.specs.View.{view};
ghost use Rattle.sc_forms.specs.Forms.{is_object, member_form};
ghost use Rattle.sc_forms.specs.declared.form.Misread.TheVariants.{NoMemory};

use serde_json::Value;
use std::alloc::{AllocError, AllocFailed, Global};
use thiserror::Error;

/// Why a value was not read.
#[derive(Clone, Copy, Debug, PartialEq, Eq, Error)]
pub enum Misread {
    /// The value is not of the form.
    #[error("the value is not of the form")]
    NotOfForm,
    /// There was no memory for what it is read as.
    #[error("out of memory")]
    NoMemory,
}

impl From<AllocError> for Misread {
    ghost from_gives = { λ _ e. e ≡ NoMemory };

    fn from(_: AllocError) -> Self {
        Misread::NoMemory
    }
}

impl<T: Drop> From<AllocFailed<T>> for Misread {
    ghost from_gives = { λ _ e. e ≡ NoMemory };

    fn from(_: AllocFailed<T>) -> Self {
        Misread::NoMemory
    }
}

/// A form of a JSON value.
pub trait Form {
    /// What a value of the form is read as.
    type Out: Drop;

    /// What a value is read as, if it is of the form.
    ghost reads: { Self → Data → Option Self.Out };

    /// What each value that is read has, as being below a bound.
    ghost fits: { Self → Self.Out → Type 0 } = { λ _ _. ⊤ };

    /// Reads a value. `NotOfForm` is answered exactly where the value is not of the form, unless
    /// there is no memory.
    fn read(&self, alloc: Global, value: &Value) -> Result<Self::Out, Misread>
        ensures ok { IfOk result (λ x. reads self.now (view value.now) ≡ Some x) }
        ensures not_of_form { IsErrOf result Misread.NotOfForm
            → reads self.now (view value.now) ≡ None }
        ensures fits { IfOk result (fits self.now) };

    /// Reads a value, as [`Form::read`] does, and gives it up: a long list as it is read, item by
    /// item.
    fn take(&self, alloc: Global, value: Value) -> Result<Self::Out, Misread>
        ensures ok { IfOk result (λ x. reads self.now (view value) ≡ Some x) }
        ensures not_of_form { IsErrOf result Misread.NotOfForm
            → reads self.now (view value) ≡ None }
        ensures fits { IfOk result (fits self.now) }
    {
        self.read(alloc, &value)
    }
}

/// Whether the value is an object.
pub fn is_object(value: &Value) -> bool
    ensures { result ≡ is_object (view value.now) }
{
    value.is_object()
}

/// The member of this name, in a form. A value that is no object has no member, and of a name that
/// stands twice in an object's text the last one counts.
pub fn member<F: Form>(
    alloc: Global,
    form: &F,
    value: &Value,
    name: &str,
) -> Result<F::Out, Misread>
    ensures ok { IfOk result (λ x. member_form (F.reads form.now) name.now (view value.now) ≡ Some x) }
    ensures not_of_form { IsErrOf result Misread.NotOfForm
        → member_form (F.reads form.now) name.now (view value.now) ≡ None }
    ensures fits { IfOk result (F.fits form.now) }
    ensures absent { get name.now (view value.now) ≡ None → result ≡ Err Misread.NotOfForm }
{
    match value.get(name) {
        Some(found) => form.read(alloc, found),
        None => Err(Misread::NotOfForm),
    }
}

/// Reads a member of an object, as [`member`] does, and gives the object up.
pub fn take_member<F: Form>(
    alloc: Global,
    form: &F,
    mut value: Value,
    name: &str,
) -> Result<F::Out, Misread>
    ensures ok { IfOk result (λ x. member_form (F.reads form.now) name.now (view value) ≡ Some x) }
    ensures not_of_form { IsErrOf result Misread.NotOfForm
        → member_form (F.reads form.now) name.now (view value) ≡ None }
    ensures fits { IfOk result (F.fits form.now) }
{
    let Some(found) = value.get_mut(name) else {
        return Err(Misread::NotOfForm);
    };
    let taken = found.take();
    form.take(alloc, taken)
}
