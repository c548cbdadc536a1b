//! Whose a journal is: a node of a cluster, and the service that it runs.

ghost use Rattle.std.specs.Prelude.{◌≡◌, ◌≤◌, ◌<◌, ◌^◌, length, IfOk};
ghost use Rattle.rex_identity.specs.Identity.{identity_bytes};

use rex_list::List;
use std::alloc::{AllocError, Global};
use std::marker::Model;

/// The kind of the record that says whose a journal is. The records of nodes have kinds 1 to 6.
pub const IDENTITY_KIND: u8 = 7;

/// The version of that record's format.
pub const IDENTITY_VERSION: u8 = 1;

/// The most bytes of a cluster's name.
pub const CLUSTER_BYTES: usize = 255;

/// Whose a journal is: the cluster's name, the number of the node and how many nodes there are, the seed of the dice, and the
/// digest of the service's text.
#[derive(Drop)]
pub struct Identity {
    cluster: List<u8>,
    id: u8,
    nodes: u8,
    seed: u32,
    service: [u8; 32],
}

impl Model for Identity {
    ghost use Rattle.rex_identity.specs.Identity.{IdentityValue, IsIdentity};

    ghost Value = { IdentityValue };

    ghost view = { λ i. record { cluster = i.cluster; id = i.id; nodes = i.nodes; seed = i.seed; service = i.service } };

    ghost invariant = { λ i. IsIdentity (record { cluster = i.cluster; id = i.id; nodes = i.nodes; seed = i.seed; service = i.service }) };
}

impl Identity {
    /// The identity of the node with the number `id` (1 to `nodes`) of a cluster of this name (at most `CLUSTER_BYTES` bytes), whose dice have
    /// this seed and whose service's text has this digest.
    pub fn new(
        alloc: Global,
        cluster: &str,
        id: u8,
        nodes: u8,
        seed: u32,
        service: [u8; 32],
    ) -> Result<Identity, AllocError>
        requires first { 1 ≤ id }
        requires last { id ≤ nodes }
        requires named { length cluster.now ≤ CLUSTER_BYTES }
        ensures { IfOk result (λ i. i ≡ record { cluster = cluster.now; id = id; nodes = nodes; seed = seed; service = service }) }
    {
        let cluster = List::from_vec(cluster.as_bytes().to_vec(alloc)?);
        Ok(Identity {
            cluster,
            id,
            nodes,
            seed,
            service,
        })
    }

    // The bytes of its record.
    pub(crate) fn spell(&self, alloc: Global) -> Result<Vec<u8>, AllocError>
        ensures spelled { IfOk result (λ bytes. bytes.items ≡ identity_bytes self.now) }
        ensures short { IfOk result (λ bytes. length bytes.items < 2 ^ 32) }
    {
        let head = [IDENTITY_KIND, IDENTITY_VERSION, self.id, self.nodes];
        let mut bytes = head.to_vec(alloc)?;
        bytes.extend_from_slice(&self.seed.to_be_bytes())?;
        bytes.extend_from_slice(&self.service)?;
        bytes.push(self.cluster.len() as u8)?;
        bytes.extend_from_slice(self.cluster.as_slice())?;
        Ok(bytes)
    }
}
