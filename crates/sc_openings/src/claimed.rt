//! What claims claim, and what is true.
ghost use Rattle.std.specs.Prelude.{◌≡◌, length};

// What claims claim, and what is true, claim by claim.
#[derive(Drop)]
pub(crate) struct ClaimedValues<EF> {
    pub(crate) claimed: Vec<EF>,
    pub(crate) truths: Vec<EF>,
    ghost same: { length claimed.items ≡ length truths.items },
}
