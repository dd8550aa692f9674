#![tactic(auto)]
// What the method stands on between outer steps. It has definitions and laws, and no code.
