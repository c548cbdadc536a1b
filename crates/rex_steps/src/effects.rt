//! What is reported of what a node answers.

ghost use Rattle.std.specs.Prelude.{◌≡◌};
ghost use Rattle.rex_cluster.specs.Reading as reading;
ghost use Rattle.rex_steps.specs.Steps as spec;

use rex_node::Refusal;
use rex_reads::Read;
use rex_report::Effect;

/// What is reported of a refusal.
pub fn effect_of(node: u8, refusal: Refusal) -> Effect
    ensures { result ≡ spec.effect_of node refusal }
{
    match refusal {
        Refusal::Down => Effect::IsDown { node },
        Refusal::NotActive { role } => Effect::NotActive { role },
        Refusal::Open { instance } => Effect::Open { instance },
        Refusal::Ended => Effect::Ended,
        Refusal::Nothing => Effect::Nothing,
        Refusal::Live { events } => Effect::Live { events },
        Refusal::UpToDate => Effect::UpToDate { node },
        Refusal::Spent => Effect::Spent { node },
        Refusal::BadSnapshot { .. } => Effect::Nothing,
        Refusal::OutOfMemory => Effect::Nothing,
    }
}

/// What is reported of an answer to a client that reads a variable at a node.
pub fn read_effect(node: u8, client: u16, variable: u16, read: Read) -> Effect
    ensures { result ≡ reading.read_effect node client variable read }
{
    match read {
        Read::Down => Effect::IsDown { node },
        Read::Primary => Effect::Primary,
        Read::Behind { have, seen } => Effect::Behind { have, seen },
        Read::Value { value, at } => Effect::Read {
            client,
            variable,
            value,
            deltas: at,
        },
    }
}
