// The spans of patch sheets: statements alone.
#![tactic(auto)]
