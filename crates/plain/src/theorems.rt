//! The theorems about the plain cipher's algebra.

ghost use Rattle.plain.specs.Laws.{Laws};

/// What was sealed or wrapped opens again, to the same text, or the same key and tag.
#[tactic(auto, using(crate::proofs::Opening::unseals, crate::proofs::Opening::unwraps))]
pub fn laws()
    ensures { Laws }
{}
