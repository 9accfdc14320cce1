//! The theorems about the definitions, for byte strings of any lengths.

ghost use Rattle.ascon.specs.Laws.{Laws};

/// What was sealed opens to the text; whatever opens is the sealing of what it opens to; and the words
/// that Ascon-CXOF128 absorbs determine customization string and message.
pub fn laws()
    ensures { Laws }
{}
