//! Lists of lanes become one.
ghost use Rattle.std.specs.Prelude.{◌≡◌, ◌<◌, ◌+◌, true, false, List, [], length, set, slice_index, slice_index_or, Some, IfOk};
ghost use Rattle.rex_words.specs.declared.stamped.Stamped.{Stamped as AStamped};
ghost use Rattle.rex_words.specs.Stamps as stamps;
ghost use Rattle.rex_words.specs.Histories.{IsMerged, IsMergeOf, IsMerging, IsFirstList, IsFirstOf, next_of};

use crate::stamped::Stamped;
use rex_event::Event;
use rex_list::List;
use std::alloc::{AllocError, Global};

/// Whether one comes before another: by stamp, and where the stamps are the same by lane.
fn comes_before(x: &Stamped, y: &Stamped) -> bool
    ensures { result ≡ stamps.comes_before x.now y.now }
{
    x.stamp < y.stamp || (x.stamp == y.stamp && x.event.lane < y.event.lane)
}

/// Whether a list has a next event, from its place on, that comes before that of the first list so far.
fn goes_first(lists: &[List<Stamped>], places: &[usize], first: Option<usize>, index: usize) -> bool
    requires places { length places.now ≡ length lists.now }
    requires index { index < length lists.now }
    requires first { IsFirstOf lists.now places.now index first }
    ensures goes { result ≡ true → IsFirstOf lists.now places.now (index + 1) (Some index) }
    ensures stays { result ≡ false → IsFirstOf lists.now places.now (index + 1) first }
{
    let list = lists[index].as_slice();
    let place = places[index];
    if place >= list.len() {
        return false;
    }
    let Some(other) = first else {
        return true;
    };
    comes_before(&list[place], &lists[other].as_slice()[places[other]])
}

/// The list whose next event comes first; none where all are at their ends.
fn first_list(lists: &[List<Stamped>], places: &[usize]) -> Option<usize>
    requires { length places.now ≡ length lists.now }
    ensures { IsFirstOf lists.now places.now (length lists.now) result }
{
    let mut first = None;
    for index in 0..lists.len() {
        if goes_first(lists, places, first, index) {
            first = Some(index);
        }
    }
    first
}

/// Takes the next event of a list.
fn take_next(lists: &[List<Stamped>], places: &mut [usize], index: usize) -> Stamped
    requires places { length places.old ≡ length lists.now }
    requires first { IsFirstList lists.now places.old (length lists.now) index }
    ensures next { result ≡ next_of lists.now places.old index result }
    ensures places { places.new ≡ set places.old index (slice_index places.old index + 1) }
{
    let place = places[index];
    let next = lists[index].as_slice()[place];
    places[index] = place + 1;
    next
}

/// How many events there are, so that the memory of all is taken at once.
fn count_in(lists: &[List<Stamped>]) -> usize {
    let mut count: usize = 0;
    for list in lists {
        count = count.saturating_add(list.len());
    }
    count
}

/// The events of all lists in order, from their places on.
fn merge_from(
    alloc: Global,
    lists: &[List<Stamped>],
    places: &mut [usize],
) -> Result<Vec<Event>, AllocError>
    requires { IsMerging lists.now places.old [] }
    ensures { IfOk result (λ events. IsMergeOf lists.now events.items) }
{
    let mut events = Vec::with_capacity(alloc, count_in(lists))?;
    while let Some(first) = first_list(lists, places) {
        let next = take_next(lists, places, first);
        // Taken apart and made again: the checker has to see what an event is made of.
        let Event { lane, index, kind } = next.event;
        events.push(Event { lane, index, kind })?;
    }
    Ok(events)
}

/// The events of the lists of lanes, the last lane's first, in one list in order.
pub(crate) fn merge_all(alloc: Global, lists: &[List<Stamped>]) -> Result<Vec<Event>, AllocError>
    requires { (whole : List AStamped) × IsMerged lists.now whole }
    ensures { IfOk result (λ events. IsMergeOf lists.now events.items) }
{
    let mut places = vec![in alloc; 0; lists.len()]?;
    merge_from(alloc, lists, &mut places)
}
