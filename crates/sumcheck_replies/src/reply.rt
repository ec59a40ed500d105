//! What a command line and an input are answered.
ghost use Rattle.std.specs.Prelude.{◌≡◌, ◌≤◌, string_bytes};
ghost use Rattle.sumcheck_replies.specs.Reply.{Replies, Reply, code_of, no_witness, no_witness_at};
ghost use Rattle.sumcheck_replies.specs.Reply.{proof_refused, refused, usage};

use crate::lines;
use sc_field::NoMemory;
use std::alloc::Global;
use std::marker::Model;

/// How an answer ends the program.
#[derive(Clone, Copy, Debug, PartialEq, Eq)]
pub enum Outcome {
    /// Every statement is true of the table, and the report says so.
    Holds,
    /// What was asked for is told, and there is no verdict.
    Told,
    /// What the proof leaves is not the product of the two values.
    Refuted,
    /// What the proof leaves is the product of the two values although a statement is false: a
    /// challenge was lucky.
    Lucky,
    /// The words are no command.
    Usage,
    /// The job is refused.
    JobRefused,
    /// The proof is refused.
    ProofRefused,
    /// A build finds no witness.
    NoWitness,
}

impl Outcome {
    /// The status that the program ends with.
    pub fn code(self) -> u8
        ensures code { result ≡ code_of self }
        ensures low { result ≤ 5 }
    {
        match self {
            Outcome::Holds => 0,
            Outcome::Told => 0,
            Outcome::Refuted => 1,
            Outcome::Lucky => 1,
            Outcome::Usage => 2,
            Outcome::JobRefused => 3,
            Outcome::ProofRefused => 4,
            Outcome::NoWitness => 5,
        }
    }
}

/// An outcome and the text that is written.
#[derive(Drop)]
pub struct Answer {
    ends: Outcome,
    written: String,
}

impl Model for Answer {
    ghost Value = { Reply };

    ghost view = { λ a. record { outcome = a.ends; text = string_bytes a.written } };
}

impl Answer {
    /// The answer with this outcome and text.
    pub fn new(outcome: Outcome, text: String) -> Self
        ensures { result ≡ record { outcome = outcome; text = string_bytes text } }
    {
        Answer {
            ends: outcome,
            written: text,
        }
    }

    /// A refused job, in one line.
    #[tactic(auto, unfolding(crate::specs::Reply::refused))]
    pub fn refused(alloc: Global, why: &str) -> Result<Self, NoMemory>
        ensures { Replies result (refused why.now) }
    {
        let text = format!(in alloc; "refused {why}\n")?;
        Ok(Answer::new(Outcome::JobRefused, text))
    }

    /// A refused proof, in one line.
    #[tactic(auto, unfolding(crate::specs::Reply::proof_refused))]
    pub fn proof_refused(alloc: Global, why: &str) -> Result<Self, NoMemory>
        ensures { Replies result (proof_refused why.now) }
    {
        let text = format!(in alloc; "proof refused {why}\n")?;
        Ok(Answer::new(Outcome::ProofRefused, text))
    }

    /// A build that finds no witness, in one line that says where.
    #[tactic(auto, unfolding(crate::specs::Reply::no_witness_at))]
    pub fn no_witness_at(alloc: Global, place: &str) -> Result<Self, NoMemory>
        ensures { Replies result (no_witness_at place.now) }
    {
        let text = format!(in alloc; "no witness {place}\n")?;
        Ok(Answer::new(Outcome::NoWitness, text))
    }

    /// A build that finds no witness in this round, in one line that says so.
    pub fn no_witness(alloc: Global, round: usize) -> Result<Self, NoMemory>
        ensures { Replies result (no_witness round) }
    {
        let place = lines::round_text(alloc, round)?;
        Answer::no_witness_at(alloc, &place)
    }

    /// The answer to words that are no command.
    #[tactic(auto, unfolding(crate::specs::Reply::usage))]
    pub fn usage(alloc: Global) -> Result<Self, NoMemory>
        ensures { Replies result usage }
    {
        let text = String::from_str(alloc, "usage\n")?;
        Ok(Answer::new(Outcome::Usage, text))
    }

    /// How it ends the program.
    pub fn outcome(&self) -> Outcome
        ensures { result ≡ self.now.outcome }
    {
        self.ends
    }

    /// The bytes that are written.
    pub fn text(&self) -> &[u8]
        ensures { result.now ≡ self.now.text }
    {
        self.written.as_bytes()
    }
}
