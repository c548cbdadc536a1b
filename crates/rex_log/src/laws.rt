//! What the bytes of records say. Each function is the statement that its contract makes, and does nothing.

ghost use Rattle.rex_log.specs.Laws.{OneMoreIsRead, PastsReadTheSame, LongerPastsReadTheSame, RecordsSayTheSame, ReadListsAreRecords};
ghost use Rattle.rex_log.specs.Laws.{MessagesSayTheSame, StatesAreTold};

/// A record that is due behind others is read with them.
pub fn one_more_is_read()
    ensures { OneMoreIsRead }
{}

/// Which bytes are read, and the numbers that they say, are the same whatever the past.
pub fn pasts_read_the_same()
    ensures { PastsReadTheSame }
{}

/// A past that has the values of each state that was taken over may grow.
pub fn longer_pasts_read_the_same()
    ensures { LongerPastsReadTheSame }
{}

/// What a node is recovered as is what its records say to the model.
pub fn records_say_the_same()
    ensures { RecordsSayTheSame }
{}

/// Lists of bytes that are all read are records.
pub fn read_lists_are_records()
    ensures { ReadListsAreRecords }
{}

/// A past that has the values of a message's state may grow.
pub fn messages_say_the_same()
    ensures { MessagesSayTheSame }
{}

/// A state that is told by a node whose known values begin the past is the one after the first of them.
pub fn states_are_told()
    ensures { StatesAreTold }
{}
