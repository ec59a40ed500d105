//! Laws of products of matrices and of merged openings, as contracts: a caller calls the function
//! and has them.
ghost use Rattle.sc_merge_definitions.specs.Matrices.{EntriesSumTables, MatmulsAreCertified};
ghost use Rattle.sc_merge_definitions.specs.Matrices.{BuiltMatmulsHold};
ghost use Rattle.sc_merge_definitions.specs.Openings.{ClaimsSumTables, OpeningsAreCertified};
ghost use Rattle.sc_merge_definitions.specs.Openings.{BuiltOpeningsHold};

/// Laws of products of matrices, over every field of challenges that the matrices' field is
/// embedded into.
///
/// The entries of a product, each times the power of a point, are in sum a sum over two tables as
/// long as the inner side. Where the rounds on it leave the product of the tables' values although
/// a claimed entry is false, a lucky challenge is named, and each one that is named is certified:
/// by a polynomial that is not zero and vanishes at it, and the number of its roots. Rounds that
/// are built on true entries show that these hold.
pub fn matmul_laws()
    ensures sums { EntriesSumTables }
    ensures certified { MatmulsAreCertified }
    ensures built { BuiltMatmulsHold }
{}

/// Laws of claims on several tables that are merged into one, over every field.
///
/// The claims' true values, each times a power of the merging challenge, are in sum a sum over all
/// tables. Where the rounds on it leave what the openings and the weights make of it, and the
/// openings are the tables' values, although a claim is false, a lucky challenge is named, and each
/// one that is named is certified; where it is the merging challenge, by a polynomial whose
/// coefficients that are not zero are those of the false claims. Rounds and openings that are built
/// on true claims show that these hold.
pub fn openings_laws()
    ensures sums { ClaimsSumTables }
    ensures certified { OpeningsAreCertified }
    ensures built { BuiltOpeningsHold }
{}
