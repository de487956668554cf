// The ledger of a plan: definitions, and their laws.
#![tactic(auto)]
