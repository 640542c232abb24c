//! Calls on a cluster under the exact rules of what ships, computed.
ghost use Rattle.script.specs.Examples.{Examples};

/// What the definitions say of concrete calls.
pub fn examples()
    ensures { Examples }
{}
