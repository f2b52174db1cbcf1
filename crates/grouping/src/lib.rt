// Several patches over a base: statements alone.
#![tactic(auto)]
