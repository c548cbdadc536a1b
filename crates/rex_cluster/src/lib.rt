//! The cluster as a model: records, nodes, messages, and worlds; what a schedule line, or an event that a node is handed, makes of a world.
//! Its laws stand in `rex_safety`.
#![tactic(auto)]
