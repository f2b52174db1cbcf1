// What a patch sheet asks of a window: definitions, laws and the theorem. There is nothing that runs.
#![tactic(auto)]
