//! The laws that following a journal stands on, for those who follow journals in ways of their own. Nothing is computed here.
ghost use Rattle.kn_follow.specs.Laws.{AccountLaws, CallLaws, EndingLaws, TellingLaws};

use kn_report::laws::adding_laws;

/// What a manner tells of events, one after the other and all at once.
pub fn telling_laws()
    ensures laws { TellingLaws }
{}

/// What one call of a reader or a sink and then another did, they did together: what they drew, and where one of them failed.
pub fn call_laws()
    ensures laws { CallLaws }
{}

/// Which statuses a reader's errors make, what is left of the input then, and how what waits is written before.
pub fn ending_laws()
    ensures laws { EndingLaws }
{
    adding_laws();
}

/// What is said of an account is so of any other that writes the same of each journal.
pub fn account_laws()
    ensures laws { AccountLaws }
{}
