//! How many variables a table has.
ghost use Rattle.std.specs.Prelude.{◌≡◌};
ghost use Rattle.sc_audit_errors.specs.Arities.{arity_of};

// The greatest number of a table's variables.
const MOST_VARIABLES: usize = 24;

/// How many variables a table of so many rows has, where it is a power of two up to 2^24.
pub fn arity(len: usize) -> Option<usize>
    ensures { result ≡ arity_of len }
{
    for n in 0..MOST_VARIABLES + 1 {
        if len == 1 << n {
            return Some(n);
        }
    }
    None
}
