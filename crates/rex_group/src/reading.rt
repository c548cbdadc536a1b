//! Where records stand in those of a keeper.

ghost use Rattle.std.specs.Prelude.{◌≡◌, IfOk, IfSome, IsNone, length};
ghost use Rattle.rex_group.specs.Groups.{BeginsNone, BeginsWith, IsNoGroup};
ghost use Rattle.rex_group.specs.Places.{AreFound, AreMembers, AreParts};

use crate::GROUP;
use rex_traits::Keeper;
use rex_wire::Reader;
use std::alloc::{AllocError, Global};

/// Where a record stands: in which record of the keeper below, and from where up to where.
#[derive(Clone, Copy, Drop)]
pub(crate) struct Place {
    pub(crate) index: usize,
    pub(crate) start: usize,
    pub(crate) end: usize,
}

// How many bytes the record has that stands at the front of these, behind its length; `None` where no whole one does.
fn first_length(bytes: &[u8]) -> Option<usize>
    ensures some { IfSome result (λ count. BeginsWith bytes.now count) }
    ensures none { IsNone result → BeginsNone bytes.now }
{
    let mut reader = Reader::new(bytes);
    let Ok(length) = reader.u32() else {
        return None;
    };
    let count = length as usize;
    match reader.bytes(count) {
        Ok(_) => Some(count),
        Err(_) => None,
    }
}

// The places of a group's records; `None` where the bytes are no group.
fn members(alloc: Global, index: usize, bytes: &[u8]) -> Result<Option<Vec<Place>>, AllocError>
    ensures some { IfOk result (λ found. IfSome found (λ places. AreMembers index bytes.now (length bytes.now) places.items)) }
    ensures none { IfOk result (λ found. IsNone found → IsNoGroup bytes.now) }
{
    if bytes.first() != Some(&GROUP) {
        return Ok(None);
    }
    let mut places = Vec::new(alloc);
    let mut end = 1;
    while end < bytes.len() {
        let Some(count) = first_length(&bytes[end..]) else {
            return Ok(None);
        };
        let start = end + 4;
        end = start + count;
        places.push(Place { index, start, end })?;
    }
    Ok(Some(places))
}

// The places of the records that a record of a keeper holds: those of a group, or itself.
fn places_in(alloc: Global, index: usize, bytes: &[u8]) -> Result<Vec<Place>, AllocError>
    ensures { IfOk result (λ places. AreParts index bytes.now places.items) }
{
    if let Some(places) = members(alloc, index, bytes)? {
        return Ok(places);
    }
    let end = bytes.len();
    let start = 0;
    Ok(vec![in alloc; Place { index, start, end }]?)
}

/// The places of the records that all records of a keeper hold.
pub(crate) fn places_of<K: Keeper>(alloc: Global, keeper: &K) -> Result<Vec<Place>, AllocError>
    ensures { IfOk result (λ places. AreFound (K.records keeper.now) (length (K.records keeper.now)) places.items) }
{
    let mut places = Vec::new(alloc);
    for index in 0..keeper.len() {
        let found = places_in(alloc, index, keeper.get(index))?;
        places.extend_from_slice(&found)?;
    }
    Ok(places)
}
