//! Lines and words in a text.

ghost use Rattle.std.specs.Prelude.{◌≡◌, false, [], ◌∷◌, length, position, MatchResult, ◌==◌};
ghost use Rattle.ascon_cli.specs.Words.{spaced, words};
ghost use Rattle.ascon_cli.specs.declared.fault.LineError.TheVariants.{ArgumentCount};

use crate::fault::LineError;

/// Where `sign` first stands in `text`.
pub fn position(text: &[u8], sign: u8) -> Option<usize>
    ensures { result ≡ position (λ b. b == sign) text.now }
{
    text.iter().position(|byte| *byte == sign)
}

/// The first word of `text`, and what follows it from its space on.
pub fn split_word(text: &[u8]) -> (&[u8], &[u8])
    ensures { words text.now ≡ result.0.now ∷ spaced result.1.now }
{
    text.split_at(position(text, b' ').unwrap_or(text.len()))
}

/// The first of the words that `rest` has, each after a space, and what follows it.
// One by one, since the check writes no proof yet of an array of references whose length is a parameter.
// By hand: std's `split` would take its closure, and a `requires` of what that computes, through each reader.
pub fn next_word(rest: &[u8]) -> Result<(&[u8], &[u8]), LineError>
    ensures { MatchResult result (λ p. spaced rest.now ≡ p.0.now ∷ spaced p.1.now) (λ e. (e ≡ ArgumentCount) × (spaced rest.now ≡ [])) }
{
    match rest {
        [] => Err(LineError::ArgumentCount),
        [_, text @ ..] => Ok(split_word(text)),
    }
}

/// The word of a rest that has only one.
pub fn only_word(rest: &[u8]) -> Result<&[u8], LineError>
    ensures { MatchResult result (λ w. spaced rest.now ≡ w.now ∷ []) (λ e. (e ≡ ArgumentCount) × ((length (spaced rest.now) == 1) ≡ false)) }
{
    let (word, more) = next_word(rest)?;
    if more.is_empty() {
        return Ok(word);
    }
    Err(LineError::ArgumentCount)
}
