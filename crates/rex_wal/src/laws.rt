//! What follows from how the bytes of a journal are laid out, for any file.
ghost use Rattle.rex_wal.specs.Laws.{BadHoldsNone, HoldsOne};

/// A file holds one list of records at most.
pub fn a_file_holds_one_list()
    ensures { HoldsOne }
{}

/// A journal that is called bad holds no records.
pub fn a_bad_journal_holds_none()
    ensures { BadHoldsNone }
{}
