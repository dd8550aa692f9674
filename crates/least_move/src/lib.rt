#![tactic(auto)]
// The least move: sheets, placements, multipliers, marks and rings, their laws, and the theory of the method.
// It has no code.
