//! Where the clients' next requests stand.

ghost use Rattle.std.specs.Prelude.{◌≡◌, ◌≢◌, ℕ, ◌+◌, ◌<◌, ◌≤◌, IfOk, length, replicate, true, false, Some, slice_index_or};
ghost use Rattle.rex_event.specs.Conflict.{named_client};
ghost use Rattle.rex_state.specs.Machine.{no_entry};
ghost use Rattle.rex_live.specs.Places.{request_at, place_at, last_of, IsOf, IsPast, IsOffered, IsLinkedFrom, IsLinked, ArePassed, IsWantedAt};
ghost use Rattle.rex_live.specs.Places.{AreNoted, ArePlaces, HasPlaces, HadPlaces, IsLeastBelow};
ghost use Rattle.rex_live.specs.Places as spec;

use rex_event::{CLIENT_ENTRIES, Kind};
use rex_record::begin_of;
use rex_state::can_begin;
use rex_state::lane::Entry;
use rex_syntax::request::Request;
use rex_syntax::service::Declarations;
use std::alloc::{AllocError, Global};

/// So many requests are looked at for the next one that may begin, before all clients are.
const LOOKS: usize = 8;

/// For each client the place of its next request in the order of the file, so that it isn't sought for among all.
#[derive(Drop)]
pub(crate) struct Places {
    /// Per request, the place of the next one of its client. There is none where it is the number of requests, or more.
    nexts: Vec<usize>,
    /// Per client, the place before which its requests are begun.
    passed: Vec<usize>,
    /// Per client, the place of its first request with the sequence that comes next.
    wanted: Vec<usize>,
    /// The place of the first request that may begin on an idle lane, or the number of requests.
    open_at: usize,
}

/// Links a request with the next one of its client.
fn link(requests: &[Request], place: usize, nexts: &mut [usize], firsts: &mut [usize])
    requires there { place < length requests.now }
    requires linked { IsLinkedFrom requests.now (place + 1) nexts.old firsts.old }
    ensures { IsLinkedFrom requests.now place nexts.new firsts.new }
{
    let client = requests[place].client as usize;
    if client < CLIENT_ENTRIES {
        nexts[place] = firsts[client];
        firsts[client] = place;
    } else {
        nexts[place] = requests.len();
    }
}

/// Links each request with the next one of its client.
fn link_all(requests: &[Request], nexts: &mut [usize], firsts: &mut [usize])
    requires { IsLinkedFrom requests.now (length requests.now) nexts.old firsts.old }
    ensures { IsLinkedFrom requests.now 0 nexts.new firsts.new }
{
    let mut place = requests.len();
    while place > 0 {
        place -= 1;
        link(requests, place, nexts, firsts);
    }
}

/// Passes a client's requests, from a place on, that have no later sequence than its last one.
fn pass(requests: &[Request], nexts: &[usize], client: u16, from: usize, last: u32) -> usize
    requires linked { IsLinked requests.now nexts.now }
    requires client { client < CLIENT_ENTRIES }
    requires own { IsOf requests.now client from }
    ensures own { IsOf requests.now client result }
    ensures passed { (place : ℕ) → from ≤ place → place < result → (request_at requests.now place).client ≡ client
        → (request_at requests.now place).sequence ≤ last }
{
    let mut place = from;
    while place < requests.len() && requests[place].sequence <= last {
        place = nexts[place];
    }
    place
}

/// Whether a request of a client with this last sequence is wanted.
fn is_wanted(service: &Declarations, last: u32, request: &Request) -> bool
    ensures { result ≡ spec.is_next service.now last request.now }
{
    can_begin(service, &begin_of(request)) && request.sequence as u64 == last as u64 + 1
}

/// The place of a client's first wanted request from a place on.
fn seek(
    service: &Declarations,
    requests: &[Request],
    nexts: &[usize],
    client: u16,
    from: usize,
    last: u32,
) -> usize
    requires linked { IsLinked requests.now nexts.now }
    requires client { client < CLIENT_ENTRIES }
    requires own { IsOf requests.now client from }
    ensures own { IsOf requests.now client result }
    ensures is { result < length requests.now → spec.is_next service.now last (request_at requests.now result) ≡ true }
    ensures sought { (place : ℕ) → from ≤ place → place < result → (request_at requests.now place).client ≡ client
        → spec.is_next service.now last (request_at requests.now place) ≡ false }
{
    let mut place = from;
    while place < requests.len() && !is_wanted(service, last, &requests[place]) {
        place = nexts[place];
    }
    place
}

/// A client's last sequence: 0 where it has sent nothing.
fn last_of(entries: &[Entry], client: u16) -> u32
    ensures { result ≡ spec.last_of entries.now client }
{
    match entries.get(client as usize) {
        Some(entry) => entry.sequence,
        None => 0,
    }
}

/// The place of a client's first wanted request, where its requests before a place are passed.
fn wanted_from(
    service: &Declarations,
    requests: &[Request],
    entries: &[Entry],
    nexts: &[usize],
    client: u16,
    passed: usize,
) -> usize
    requires linked { IsLinked requests.now nexts.now }
    requires client { client < CLIENT_ENTRIES }
    requires own { IsOf requests.now client passed }
    requires passed { ArePassed requests.now entries.now client passed }
    ensures { IsWantedAt service.now requests.now entries.now client result }
{
    seek(
        service,
        requests,
        nexts,
        client,
        passed,
        last_of(entries, client),
    )
}

/// Seeks each client's first wanted request.
fn seek_all(
    service: &Declarations,
    requests: &[Request],
    entries: &[Entry],
    nexts: &[usize],
    passed: &[usize],
    wanted: &mut [usize],
)
    requires linked { IsLinked requests.now nexts.now }
    requires noted { AreNoted requests.now entries.now passed.now }
    requires long { length wanted.old ≡ CLIENT_ENTRIES }
    ensures { (client : ℕ) → client < CLIENT_ENTRIES → IsWantedAt service.now requests.now entries.now client (place_at wanted.new client) }
{
    for client in 0..CLIENT_ENTRIES as u16 {
        let place = passed[client as usize];
        wanted[client as usize] = wanted_from(service, requests, entries, nexts, client, place);
    }
}

/// Whether a client may begin a request: it has sent nothing, or its last request is replied to.
fn may_begin(entry: &Entry) -> bool
    ensures { result ≡ spec.may_begin entry.now }
{
    entry.sequence == 0 || entry.reply.is_some()
}

/// The least of the places that are noted for clients that may begin a request, or the end.
fn least(entries: &[Entry], wanted: &[usize], end: usize) -> usize
    requires entries { length entries.now ≡ CLIENT_ENTRIES }
    requires wanted { length wanted.now ≡ CLIENT_ENTRIES }
    ensures { IsLeastBelow entries.now wanted.now end CLIENT_ENTRIES result }
{
    let mut place = end;
    for client in 0..CLIENT_ENTRIES {
        if may_begin(&entries[client]) && wanted[client] < place {
            place = wanted[client];
        }
    }
    place
}

/// Whether a place is noted for a client that may begin a request.
fn is_offered(entries: &[Entry], wanted: &[usize], client: u16, place: usize) -> bool
    requires entries { length entries.now ≡ CLIENT_ENTRIES }
    requires wanted { length wanted.now ≡ CLIENT_ENTRIES }
    ensures offered { result ≡ true → IsOffered entries.now wanted.now place }
    ensures isnt { result ≡ false → IsPast entries.now wanted.now place client → IsPast entries.now wanted.now (place + 1) client }
{
    let client = client as usize;
    client < CLIENT_ENTRIES && wanted[client] == place && may_begin(&entries[client])
}

/// The first of some places that is noted for a client that may begin a request, or their end. None is noted for such a client before
/// them.
fn seek_offered(
    requests: &[Request],
    entries: &[Entry],
    wanted: &[usize],
    from: usize,
    till: usize,
) -> usize
    requires entries { length entries.now ≡ CLIENT_ENTRIES }
    requires wanted { length wanted.now ≡ CLIENT_ENTRIES }
    requires own { (client : ℕ) → client < CLIENT_ENTRIES → IsOf requests.now client (place_at wanted.now client) }
    requires some { from ≤ till }
    requires there { till ≤ length requests.now }
    requires none { (client : ℕ) → IsPast entries.now wanted.now from client }
    ensures most { result ≤ till }
    ensures offered { result < till → IsOffered entries.now wanted.now result }
    ensures none { (client : ℕ) → IsPast entries.now wanted.now result client }
{
    let mut place = from;
    while place < till && !is_offered(entries, wanted, requests[place].client, place) {
        place += 1;
    }
    place
}

/// The least of the places that are noted for clients that may begin a request, or the end, where none of them is before a place. It
/// mostly is one of the next few, so that not all clients have to be looked at.
fn least_from(requests: &[Request], entries: &[Entry], wanted: &[usize], from: usize) -> usize
    requires entries { length entries.now ≡ CLIENT_ENTRIES }
    requires wanted { length wanted.now ≡ CLIENT_ENTRIES }
    requires own { (client : ℕ) → client < CLIENT_ENTRIES → IsOf requests.now client (place_at wanted.now client) }
    requires there { from ≤ length requests.now }
    requires none { (client : ℕ) → IsPast entries.now wanted.now from client }
    ensures { IsLeastBelow entries.now wanted.now (length requests.now) CLIENT_ENTRIES result }
{
    let end = requests.len();
    let till = from + (end - from).min(LOOKS);
    let place = seek_offered(requests, entries, wanted, from, till);
    if place < till || till == end {
        place
    } else {
        least(entries, wanted, end)
    }
}

/// The earlier of a place and the one that is noted for a client, if there is one.
fn earlier(wanted: &[usize], client: u16, place: usize) -> usize
    requires wanted { length wanted.now ≡ CLIENT_ENTRIES }
    ensures most { result ≤ place }
    ensures client { client < CLIENT_ENTRIES → result ≤ place_at wanted.now client }
{
    match wanted.get(client as usize) {
        Some(own) => place.min(*own),
        None => place,
    }
}

impl Places {
    /// The places in a list of requests, where the clients' entries are these.
    pub(crate) fn new(
        alloc: Global,
        service: &Declarations,
        requests: &[Request],
        entries: &[Entry],
    ) -> Result<Places, AllocError>
        requires { length entries.now ≡ CLIENT_ENTRIES }
        ensures { IfOk result (λ p. HasPlaces service.now requests.now entries.now p) }
    {
        let end = requests.len();
        let mut nexts = vec![in alloc; end; end]?;
        let mut passed = vec![in alloc; end; CLIENT_ENTRIES]?;
        let mut wanted = vec![in alloc; end; CLIENT_ENTRIES]?;
        link_all(requests, &mut nexts, &mut passed);
        seek_all(service, requests, entries, &nexts, &passed, &mut wanted);
        let open_at = least(entries, &wanted, end);
        Ok(Places {
            nexts,
            passed,
            wanted,
            open_at,
        })
    }

    /// Follows an event that was allowed, after which the clients' entries are these.
    pub(crate) fn follow(
        &mut self,
        service: &Declarations,
        requests: &[Request],
        entries: &[Entry],
        kind: &Kind,
    )
        requires { HadPlaces service.now requests.now kind.now entries.now self.old }
        ensures { HasPlaces service.now requests.now entries.now self.new }
    {
        match kind {
            Kind::Begin { client, .. } => {
                self.pass_begun(service, requests, entries, kind);
                self.reopen(service, requests, entries, *client);
            }
            Kind::Reply { client, .. } => self.reopen(service, requests, entries, *client),
            _ => {}
        }
    }

    /// Passes the requests of a client whose request begins.
    fn pass_begun(
        &mut self,
        service: &Declarations,
        requests: &[Request],
        entries: &[Entry],
        kind: &Kind,
    )
        requires { HadPlaces service.now requests.now kind.now entries.now self.old }
        ensures places { ArePlaces service.now requests.now entries.now self.new.nexts.items self.new.passed.items self.new.wanted.items }
        ensures others { (client : ℕ) → named_client kind.now ≡ Some client → (other : ℕ) → other ≢ client
            → place_at self.new.wanted.items other ≡ place_at self.old.wanted.items other }
        ensures open_at { self.new.open_at ≡ self.old.open_at }
    {
        if let Kind::Begin { client, .. } = kind
            && (*client as usize) < CLIENT_ENTRIES
        {
            self.renew(service, requests, entries, *client);
        }
    }

    /// Seeks the first request that may begin, where no other client than one may begin a request before the one that was the first.
    fn reopen(
        &mut self,
        service: &Declarations,
        requests: &[Request],
        entries: &[Entry],
        client: u16,
    )
        requires places { ArePlaces service.now requests.now entries.now self.old.nexts.items self.old.passed.items self.old.wanted.items }
        requires entries { length entries.now ≡ CLIENT_ENTRIES }
        requires most { self.old.open_at ≤ length requests.now }
        requires others { (other : ℕ) → other ≢ client → IsPast entries.now self.old.wanted.items self.old.open_at other }
        ensures { HasPlaces service.now requests.now entries.now self.new }
    {
        let from = earlier(&self.wanted, client, self.open_at);
        self.open_at = least_from(requests, entries, &self.wanted, from);
    }

    /// Passes a client's requests up to its last one, and seeks the next one.
    fn renew(
        &mut self,
        service: &Declarations,
        requests: &[Request],
        entries: &[Entry],
        client: u16,
    )
        requires client { client < CLIENT_ENTRIES }
        requires linked { IsLinked requests.now self.old.nexts.items }
        requires noted { AreNoted requests.now entries.now self.old.passed.items }
        requires long { length self.old.wanted.items ≡ CLIENT_ENTRIES }
        ensures nexts { self.new.nexts ≡ self.old.nexts }
        ensures open_at { self.new.open_at ≡ self.old.open_at }
        ensures noted { AreNoted requests.now entries.now self.new.passed.items }
        ensures long { length self.new.wanted.items ≡ CLIENT_ENTRIES }
        ensures here { IsWantedAt service.now requests.now entries.now client (place_at self.new.wanted.items client) }
        ensures others { (other : ℕ) → other ≢ client → place_at self.new.wanted.items other ≡ place_at self.old.wanted.items other }
    {
        let place = client as usize;
        let passed = pass(
            requests,
            &self.nexts,
            client,
            self.passed[place],
            last_of(entries, client),
        );
        self.passed[place] = passed;
        self.wanted[place] = wanted_from(service, requests, entries, &self.nexts, client, passed);
    }

    /// The place of the first request that may begin on an idle lane, or the number of requests.
    pub(crate) fn first_open(&self) -> usize
        ensures { result ≡ self.now.open_at }
    {
        self.open_at
    }
}
