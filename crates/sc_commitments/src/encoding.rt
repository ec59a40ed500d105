//! What encodes messages with randomness.
ghost use Rattle.std.specs.Prelude.{◌≡◌, ℕ, List, All, IfOk, OnErr, map, length};
ghost use Rattle.rand_core.specs.Stream.{Stream};
ghost use Rattle.sc_commitments.specs.Matrices.{Matrix, matrix_of, numbers_in, lists_in, HasShape};

use crate::matrix::RowMajorMatrix;
use rand_core::Rng;
use sc_field::{Field, NoMemory};
use std::alloc::Global;

/// A code that encodes messages together with randomness, and draws both from a generator.
///
/// Its three lengths, the matrix that it makes of given lists, and what it draws from a given
/// generator are definitions that belong to the object. They speak of elements by their numbers,
/// and of a generator by all that it is going to answer, its stream.
pub trait ZkEncoding<EF: Field>: Drop {
    // The lengths of a message, of its randomness, and of the codeword of both.
    ghost message_length: { Self → ℕ };

    ghost randomness_length: { Self → ℕ };

    ghost codeword_length: { Self → ℕ };

    // The matrix of messages and of the randomness of each: its columns are the codewords.
    ghost encoded: { Self → List (List ℕ) → List (List ℕ) → Matrix };

    // The message that is drawn from a stream, with the stream that is left.
    ghost message_from: { Self → Stream → List ℕ × Stream };

    // The randomness that is drawn from a stream, with the stream that is left.
    ghost randomness_from: { Self → Stream → List ℕ × Stream };

    /// How many elements a message has.
    fn message_len(&self) -> usize
        ensures { result ≡ message_length self.now };

    /// How many elements the randomness of a message has.
    fn randomness_len(&self) -> usize
        ensures { result ≡ randomness_length self.now };

    /// How many elements a codeword has.
    fn codeword_len(&self) -> usize
        ensures { result ≡ codeword_length self.now };

    /// Draws a message, of [`message_len`](ZkEncoding::message_len) elements.
    ///
    /// # Errors
    ///
    /// [`NoMemory`] comes before anything is drawn: the generator is as it was.
    fn sample_message<G: Rng>(&self, alloc: Global, rng: &mut G) -> Result<Vec<EF>, NoMemory>
        ensures drawn { IfOk result (λ v. (numbers_in EF.number v, G.stream rng.new)
            ≡ message_from self.now (G.stream rng.old)) }
        ensures size { IfOk result (λ v. length v.items ≡ message_length self.now) }
        ensures refused { OnErr result (rng.new ≡ rng.old) };

    /// Draws the randomness of a message, of [`randomness_len`](ZkEncoding::randomness_len)
    /// elements.
    ///
    /// # Errors
    ///
    /// [`NoMemory`] comes before anything is drawn: the generator is as it was.
    fn sample_randomness<G: Rng>(&self, alloc: Global, rng: &mut G) -> Result<Vec<EF>, NoMemory>
        ensures drawn { IfOk result (λ v. (numbers_in EF.number v, G.stream rng.new)
            ≡ randomness_from self.now (G.stream rng.old)) }
        ensures size { IfOk result (λ v. length v.items ≡ randomness_length self.now) }
        ensures refused { OnErr result (rng.new ≡ rng.old) };

    /// The codewords of messages, each with its own randomness, as the columns of a matrix: row z,
    /// column j is position z of codeword j. So the matrix has a row for each position, and a
    /// column for each message.
    ///
    /// # Conditions
    ///
    /// There are as many lists of randomness as messages, and each list has its length.
    ///
    /// # Errors
    ///
    /// [`NoMemory`] alone.
    fn encode_batch_with_randomness(
        &self,
        alloc: Global,
        messages: &[Vec<EF>],
        randomness: &[Vec<EF>],
    ) -> Result<RowMajorMatrix<EF>, NoMemory>
        requires same { length messages.now ≡ length randomness.now }
        requires messages { All (λ v. length v.items ≡ message_length self.now) messages.now }
        requires randomness { All (λ v. length v.items ≡ randomness_length self.now)
            randomness.now }
        ensures matrix { IfOk result (λ m. matrix_of EF.number m
            ≡ encoded self.now (lists_in EF.number messages.now)
            (lists_in EF.number randomness.now)) }
        ensures shape { IfOk result (λ m. HasShape (codeword_length self.now) (length messages.now)
            (matrix_of EF.number m)) };
}
