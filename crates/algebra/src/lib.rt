#![tactic(auto)]
// The algebra of whole numbers that every proof uses. It has laws and no code.
