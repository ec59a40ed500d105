//! Claimed values.

ghost use Rattle.std.specs.Prelude.{◌≡◌};

use sc_field::Field;

/// A value that is claimed at a point, with what else belongs to the claim.
#[derive(Drop)]
pub struct Claim<F: Field, P, Data> {
    point: P,
    eval: F,
    payload: Data,
}

impl<F: Field, P, Data> Claim<F, P, Data> {
    /// The claim of the value `eval` at `point`.
    pub fn new(point: P, eval: F, payload: Data) -> Self
        ensures { result ≡ record { point = point; eval = eval; payload = payload } }
    {
        Claim {
            point,
            eval,
            payload,
        }
    }

    /// The claimed value.
    pub fn eval(&self) -> F
        ensures { result ≡ self.now.eval }
    {
        self.eval
    }

    /// The point.
    pub fn point(&self) -> &P
        ensures { result.now ≡ self.now.point }
    {
        &self.point
    }

    /// What else belongs to the claim.
    pub fn payload(&self) -> &Data
        ensures { result.now ≡ self.now.payload }
    {
        &self.payload
    }
}
