#![tactic(auto)]
// The forest of marked gaps in doubles grows: as the balance left it, and then tree by tree. Nobody trusts it.
pub mod planting;
pub mod uniting;
