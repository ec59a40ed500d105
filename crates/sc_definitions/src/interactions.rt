//! The steps of a protocol, which its seed is made of.

/// What a step of a protocol does.
#[derive(Clone, Copy, Debug, PartialEq, Eq)]
pub enum Kind {
    /// Values are observed.
    Message,
    /// Values are drawn.
    Challenge,
    /// A witness is observed and tested.
    Pow,
}

/// How many values a step has. For a witness it is the difficulty, in bits.
#[derive(Clone, Copy, Debug, PartialEq, Eq)]
pub enum Length {
    /// One value.
    Scalar,
    /// So many.
    Fixed(usize),
}

/// What a step is for.
#[derive(Clone, Copy, Debug, PartialEq, Eq)]
pub enum Label {
    /// The claimed sum.
    ClaimedSum,
    /// The values that a round sends.
    RoundPoly,
    /// The witness of a round.
    RoundPow,
    /// The challenge of a round.
    RoundChallenge,
    /// The challenge whose powers batch recorded claims.
    ClaimBatching,
    /// A claim that was handed on.
    JointClaim,
    /// The commitment to the masks.
    MaskCommitment,
    /// The sum of the masks over all points.
    MuTilde,
    /// The challenge that combines the masks with what they mask.
    MaskCombination,
}

/// A protocol that has a seed.
#[derive(Clone, Copy, Debug, PartialEq, Eq)]
pub enum Protocol {
    /// Rounds of degree two, on a table and its weights.
    Quadratic,
    /// Rounds of any degree, on several tables.
    GenericDegree,
    /// Rounds of degree two under masks.
    Hvzk,
}

/// One step of a protocol.
#[derive(Clone, Copy, Debug, PartialEq, Eq)]
pub struct Interaction {
    /// What it does.
    pub kind: Kind,
    /// How many base elements one of its values has.
    pub parts: usize,
    /// How many values it has.
    pub length: Length,
    /// What it is for.
    pub label: Label,
}
