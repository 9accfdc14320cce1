//! The promises about every order of commands, as theorems.
#![tactic(auto)]

ghost use Rattle.terms.specs.Cases.{Cases};
ghost use Rattle.terms.specs.Promises.{Promises};

/// All promises hold, for any number of boxes, any commands and any adversary.
pub fn promises()
    ensures { Promises }
{}

/// The table of cases: what boxes answer to short lists of commands.
pub fn cases()
    ensures { Cases }
{}
