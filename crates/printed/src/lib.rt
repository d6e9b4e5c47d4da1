// Statements printed as JSON texts: definitions and laws alone.

#![tactic(auto)]
