//! What the generated scenarios are, as a law.
#![tactic(auto)]

ghost use Rattle.rex_soak.specs.Generated.{GeneratedScenariosAreGood};

/// A law: each generated scenario is one, and its service passes the check.
pub fn generated_scenarios_are_good()
    ensures { GeneratedScenariosAreGood }
{}
