//! What is proved of clauses and verdicts, beside what a judge answers.
ghost use Rattle.std.specs.Prelude.{◌≡◌, List, length};
ghost use Rattle.zt_protocol.specs.Plain.{PlainEntry, PlainLine};
ghost use Rattle.zt_model.specs.Fabric.{empty_fabric};
ghost use Rattle.zt_check.specs.Laws.{IsFaithfulAndAnswers, JudgesOnce, MeetsEveryClause};

use zt_keys::Key;

/// An entry for each line, whose turn meets every clause, is exactly a faithful transcript whose
/// asks are answered and finished as is promised.
pub fn clauses_are_the_promises<K: Key>()
    ensures enough { (lines : List (PlainLine K)) (entries : List (PlainEntry K))
        → length entries ≡ length lines
        → MeetsEveryClause K.cmp K.matching lines entries empty_fabric
        → IsFaithfulAndAnswers K.cmp K.matching lines entries empty_fabric }
    ensures no_more { (lines : List (PlainLine K)) (entries : List (PlainEntry K))
        → IsFaithfulAndAnswers K.cmp K.matching lines entries empty_fabric
        → MeetsEveryClause K.cmp K.matching lines entries empty_fabric }
{}

/// Whatever clauses are asked for, at most one verdict can be given of a claimed text.
pub fn a_claim_has_one_verdict<K: Key>()
    ensures { JudgesOnce K.cmp K.matching K.printed }
{}
