// Lists: laws that know nothing of records, windows or digits. No function runs.
#![tactic(auto)]
