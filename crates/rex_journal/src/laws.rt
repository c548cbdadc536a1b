//! What follows from how the bytes of a journal are laid out, for any file.
ghost use Rattle.rex_journal.specs.Laws.{BadHoldsNone, BadOnce, HoldsOne, PendingHolds, RestHolds};

/// A file holds one list of records at most.
pub fn a_file_holds_one_list()
    ensures { HoldsOne }
{}

/// A journal that is called bad holds no records.
pub fn a_bad_journal_holds_none()
    ensures { BadHoldsNone }
{}

/// A journal is bad at one place at most.
pub fn a_journal_is_bad_at_one_place()
    ensures { BadOnce }
{}

/// A file that stands for records, with nothing pending, holds them.
#[tactic(auto, using(crate::proofs::BytesLaws::rest_holds))]
pub fn a_file_at_rest_holds_its_records()
    ensures { RestHolds }
{}

/// A file that stands for records with one that is pending holds them, or them and that one.
#[tactic(auto, using(crate::proofs::BytesLaws::pending_holds))]
pub fn a_file_amid_an_append_holds_either()
    ensures { PendingHolds }
{}
