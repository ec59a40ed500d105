// Bytes as a JSON value.
ghost use Rattle.std.specs.Prelude.{◌≡◌, Some, None, IfOk, IsErrOf};
ghost use Rattle.serde_json.specs.View.{view};
ghost use Rattle.sc_forms.specs.Values.{value_of};

use serde_json::Value;
use std::alloc::Global;
use thiserror::Error;

/// Why bytes were not read as a value.
#[derive(Clone, Copy, Debug, PartialEq, Eq, Error)]
pub enum NoValue {
    /// They are not one JSON value.
    #[error("the bytes are not one JSON value")]
    Bad,
    /// There was no memory for the value.
    #[error("out of memory")]
    NoMemory,
}

/// The value that the bytes are: one JSON text in UTF-8, with blanks around it at most, whose arrays and
/// objects nest 127 deep at most. Of a member that stands twice the last one counts.
pub fn read_value(alloc: Global, input: &[u8]) -> Result<Value, NoValue>
    ensures ok { IfOk result (λ v. value_of input.now ≡ Some (view v)) }
    ensures bad { IsErrOf result NoValue.Bad → value_of input.now ≡ None }
{
    match Value::from_slice(alloc, input) {
        Ok(value) => Ok(value),
        Err(error) => {
            if error.is_memory() {
                Err(NoValue::NoMemory)
            } else {
                Err(NoValue::Bad)
            }
        }
    }
}
