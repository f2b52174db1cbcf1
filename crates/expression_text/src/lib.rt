// The normal form of an expression's text: statements alone.
#![tactic(auto)]
