// The canonical texts of chips, loaded and collected: statements alone.
#![tactic(auto)]
