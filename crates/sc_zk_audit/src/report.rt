//! What is answered.
use sc_zk_rounds::MaskedRun;

/// The report on masked rounds that were played and replayed. The statements are true, so it holds.
#[derive(Drop)]
pub struct MaskedReport<F, EF> {
    /// The claim that the rounds begin with: the batched claim with aux.
    pub claim: EF,
    /// The masks' total, the rounds and their challenges, what the replay leaves, and the parts of
    /// that, whose sum it is: the plain residual and what is left of aux, both times the
    /// combination, and the masks at the challenges.
    pub run: MaskedRun<F, EF>,
}
