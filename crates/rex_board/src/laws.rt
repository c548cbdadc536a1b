//! What is so at each moment of a board. Each function is the statement that its contract makes, and does nothing.

ghost use Rattle.rex_board.specs.Laws.{ViewsKnowWhatIsSo, LanesHaveOneView, FreshLanesStandAtTheStart, LaneWordsRiseByOne, OtherStepsKeepLaneWords};
ghost use Rattle.rex_board.specs.Laws.{DoneEventsWereDue};

/// At each moment what the view of a lane's seat knows is so: its count is the lane's word, its frame and the copies of
/// what it holds are those of the state at the lane words, and its bounds are at most the words.
pub fn views_know_what_is_so()
    ensures { ViewsKnowWhatIsSo }
{}

/// At no moment do two seats have one lane.
pub fn lanes_have_one_view()
    ensures { LanesHaveOneView }
{}

/// At each moment a lane that had no seat yet has its count at the start in its word.
pub fn fresh_lanes_stand_at_the_start()
    ensures { FreshLanesStandAtTheStart }
{}

/// A step that does an event leaves one more in its lane's word, and every other word as it was.
pub fn lane_words_rise_by_one()
    ensures { LaneWordsRiseByOne }
{}

/// No other step changes the word of a lane: neither a load, nor the store of a variable.
pub fn other_steps_keep_lane_words()
    ensures { OtherStepsKeepLaneWords }
{}

/// When a step that does an event stores the lane's word, the event is the lane's next one at the lane words, and all its
/// causes lie below them.
pub fn done_events_were_due()
    ensures { DoneEventsWereDue }
{}
