//! Which lanes have events between two counts.

ghost use Rattle.std.specs.Prelude.{◌≡◌, ◌<◌, ◌≤◌, length, nat_le};
ghost use Rattle.rex_event.specs.Limits.{most_lanes};
ghost use Rattle.rex_delta.specs.Spelling as spelling;
ghost use Rattle.rex_delta.specs.Reading as reading;

/// The lane has an event between the counts.
pub fn has_event(bases: &[u32], counts: &[u32], lane: u8) -> bool
    requires alike { length bases.now ≡ length counts.now }
    requires there { lane < length counts.now }
    ensures { result ≡ spelling.has_event bases.now counts.now lane }
{
    bases[lane as usize] < counts[lane as usize]
}

/// At least so many lanes but for this one have an event between the counts.
pub fn has_others(bases: &[u32], counts: &[u32], lane: u8, count: u8) -> bool
    requires alike { length bases.now ≡ length counts.now }
    requires few { length counts.now ≤ most_lanes }
    ensures { result ≡ nat_le count (spelling.others_below bases.now counts.now lane (length counts.now)) }
{
    count == 0 || has_some_others(bases, counts, lane, count)
}

/// The same of at least one. It stops at the last that is needed.
#[inline(never)]
fn has_some_others(bases: &[u32], counts: &[u32], lane: u8, count: u8) -> bool
    requires alike { length bases.now ≡ length counts.now }
    requires few { length counts.now ≤ most_lanes }
    requires some { 0 < count }
    ensures { result ≡ nat_le count (spelling.others_below bases.now counts.now lane (length counts.now)) }
{
    let mut left = count;
    for other in 0..counts.len() as u8 {
        if has_event(bases, counts, other) && other != lane {
            if left == 1 {
                return true;
            }
            left -= 1;
        }
    }
    false
}

/// The number is of another lane that has an event between the counts, and above the one before.
pub fn may_be_cause(bases: &[u32], counts: &[u32], lane: u8, above: u8, number: u8) -> bool
    requires alike { length bases.now ≡ length counts.now }
    requires few { length counts.now ≤ most_lanes }
    requires there { lane < length counts.now }
    ensures { result ≡ reading.may_be_cause bases.now counts.now lane above number }
{
    above < number
        && number as usize <= counts.len()
        && number != lane + 1
        && has_event(bases, counts, number - 1)
}

/// The index is of an event of the lane between the counts.
pub fn may_be_index(bases: &[u32], counts: &[u32], lane: u8, index: u32) -> bool
    requires alike { length bases.now ≡ length counts.now }
    requires there { lane < length counts.now }
    ensures { result ≡ reading.may_be_index bases.now counts.now lane index }
{
    bases[lane as usize] <= index && index < counts[lane as usize]
}
