//! What command lines ask for. Each function is the statement that its contract makes, and does nothing.

ghost use Rattle.rexnode_command.specs.Laws.{CommandsFit, PlainFormsAreTaken, FaultyFormsAreRefused};

/// A command line asks for a node with a number from 1 to that of nodes, which is odd and at most `NODES`, a seed of 32 bits, and a name of at most
/// `CLUSTER_BYTES` bytes.
pub fn commands_fit()
    ensures { CommandsFit }
{}

/// The program's name, the two numbers in plain decimal, and two texts that don't begin with a hyphen are a command line. Behind them may stand a seed, a
/// cluster's name, or one and then the other.
pub fn plain_forms_are_taken()
    ensures { PlainFormsAreTaken }
{}

/// Words are no command line where fewer than four stand behind the program's name, or where a fifth does.
pub fn faulty_forms_are_refused()
    ensures { FaultyFormsAreRefused }
{}
