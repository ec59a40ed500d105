//! Inverses modulo a prime number.
ghost use Rattle.std.specs.Prelude.{◌≡◌, ◌<◌};
ghost use Rattle.sc_definitions.specs.Residues.{residues, IsPrime};
ghost use Rattle.sc_definitions.specs.Ring.{◌*⟨◌⟩◌};

/// The inverse of a number that is not 0, modulo a prime number.
pub(crate) fn inverse_modulo(value: u32, modulus: u32) -> u32
    requires prime { IsPrime modulus }
    requires positive { 0 < value }
    requires low { value < modulus }
    ensures below { result < modulus }
    ensures inverse { value *⟨ residues modulus ⟩ result ≡ 1 }
{
    let mut rest = value;
    let mut factor: u32 = 1;
    // `value` times `factor` is `rest`. The modulus counts as 0, so what is left of it after division by
    // `rest` is -`quotient` times `rest`.
    while rest != 1 {
        let quotient = modulus / rest;
        let product = quotient as u64 * factor as u64 % modulus as u64;
        factor = (modulus - product as u32) % modulus;
        rest = modulus % rest;
    }
    factor
}
