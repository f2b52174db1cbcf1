// Loads and writes of windows whose marks are stored in a form: statements alone.
#![tactic(auto)]
