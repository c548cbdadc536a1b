//! What words are about, as clauses see it.

use rex_list::List;
use rex_syntax::checked::Checked;
use rex_syntax::request::Request;
use std::snapshot::Snapshot;

/// The service, the requests in their order, and the seed of the lanes' random generators. It has no bytes.
#[derive(Drop)]
pub struct Assignment {
    pub service: Snapshot<Checked>,
    pub requests: Snapshot<List<Request>>,
    pub seed: Snapshot<u64>,
}

impl Assignment {
    ghost use Rattle.std.specs.Prelude.{◌≡◌};

    pub(crate) fn of(svc: &Checked, requests: &List<Request>, seed: u64) -> Assignment
        ensures { (result.service.value ≡ svc.now) × (result.requests.value ≡ requests.now) × (result.seed.value ≡ seed) }
    {
        Assignment {
            service: Snapshot::of(svc),
            requests: Snapshot::of(requests),
            seed: Snapshot::of(&seed),
        }
    }
}
