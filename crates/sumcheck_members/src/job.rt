//! What a job says, whatever is done with it.
ghost use Rattle.std.specs.Prelude.{◌≡◌, length};
ghost use Rattle.sumcheck_members.specs.Elements.{sizes_of};
ghost use Rattle.sumcheck_members.specs.Statements.{group_claims};

use sc_table::{Row, VariableOrder};

/// The field of a table's entries, with the extension that points, values and challenges are in.
#[derive(Clone, Copy, Debug, PartialEq, Eq)]
pub enum FieldName {
    /// The integers modulo 65537, over themselves.
    F65537,
    /// Over the integers modulo 257: the elements a + b u with `u^2 = 3`. Such an element has the number a + 257 b.
    F257x2,
    /// The field of 16 elements, over itself, by numbers with the bits of 1, w, y and wy, where `w^2 = w + 1` and `y^2 = y + w`.
    F16,
}

/// How many elements a base field and its extension have.
#[derive(Clone, Copy, Debug, PartialEq, Eq)]
pub struct Sizes {
    pub base: u64,
    pub extension: u64,
}

impl FieldName {
    /// How many elements the two fields have.
    pub fn sizes(self) -> Sizes
        ensures { result ≡ sizes_of self }
    {
        match self {
            FieldName::F65537 => Sizes {
                base: 65537,
                extension: 65537,
            },
            FieldName::F257x2 => Sizes {
                base: 257,
                extension: 66049,
            },
            FieldName::F16 => Sizes {
                base: 16,
                extension: 16,
            },
        }
    }
}

/// A scripted challenger: its draws, and for each test the witnesses that pass, all elements of the base field by their numbers.
#[derive(Drop)]
pub struct Script {
    /// The draws, in order.
    pub draws: Row<u64>,
    /// For each test, the witnesses that pass it.
    pub witnesses: Row<Row<u64>>,
}

/// What answers draws and tests.
#[derive(Drop)]
pub enum Challenger {
    /// A script.
    Scripted(Script),
    /// Digests of what was observed, drawn and tested.
    Hash,
}

/// The claim that the table has a value at a point.
#[derive(Drop)]
pub struct EqualityClaim {
    /// The point's coordinates, the one of the highest row digit first.
    pub point: Row<u64>,
    /// The claimed value.
    pub value: u64,
}

/// The claim that the table has a value at a point through the successor map, in the slot of a selector.
///
/// The selector's and the point's coordinates are together as many as the table has variables, and in each list the one of the highest row
/// digit stands first.
#[derive(Drop)]
pub struct SuccessorClaim {
    /// The selector's coordinates.
    pub selector: Row<u64>,
    /// The point's coordinates.
    pub point: Row<u64>,
    /// Whether the selector fixes the highest row digits, by `Prefix`, or the lowest.
    pub order: VariableOrder,
    /// The claimed value.
    pub value: u64,
}

/// The claim that the sum of the table's entries times the powers of a scalar of the base field has a value.
#[derive(Drop)]
pub struct ScalarClaim {
    /// The scalar.
    pub scalar: u64,
    /// The claimed value.
    pub value: u64,
}

/// The claim that the sum of the table's entries times products of the coordinates of a point over the base field has a value.
#[derive(Drop)]
pub struct ProductClaim {
    /// The point's coordinates, the one of the highest row digit first.
    pub point: Row<u64>,
    /// The claimed value.
    pub value: u64,
}

/// A group of claims of one kind, in order.
#[derive(Drop)]
pub enum Group {
    /// Values at points.
    Equality(Row<EqualityClaim>),
    /// Values through the successor map.
    Successor(Row<SuccessorClaim>),
    /// Sums times the powers of scalars.
    Scalars(Row<ScalarClaim>),
    /// Sums times products of coordinates.
    Products(Row<ProductClaim>),
}

impl Group {
    /// How many claims there are.
    pub fn len(&self) -> usize
        ensures { result ≡ length (group_claims (λ n. n) self.now) }
    {
        match self {
            Group::Equality(claims) => claims.len(),
            Group::Successor(claims) => claims.len(),
            Group::Scalars(claims) => claims.len(),
            Group::Products(claims) => claims.len(),
        }
    }
}

/// What a job states: a table with claims on it, and a challenger. Elements stand by their numbers.
#[derive(Drop)]
pub struct Stated {
    /// Over which fields.
    pub field: FieldName,
    /// What answers draws and tests.
    pub challenger: Challenger,
    /// Which variable a round binds.
    pub order: VariableOrder,
    /// The difficulty of each round's test in bits, at most 65,535, or 0 for no test.
    pub bits: u64,
    /// The table of elements of the base field, row 0 first.
    pub table: Row<u64>,
    /// How many coordinates the points of the claims have, at most 64.
    pub variables: u64,
    /// The groups of claims, in order, with at most 4,096 claims in all.
    pub groups: Row<Group>,
    /// The element whose powers batch the statements.
    pub batching: u64,
}
