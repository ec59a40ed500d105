//! Laws of shapes, as contracts: a caller calls the function and has them.
ghost use Rattle.sc_zk_transcript.specs.Laws.{MaskedSeedsTell, SeedsDiffer};

/// A seed tells the shape that it is of from others, and masked rounds from quadratic rounds and
/// from rounds of any degree.
pub fn shape_laws()
    ensures shapes { MaskedSeedsTell }
    ensures protocols { SeedsDiffer }
{}
