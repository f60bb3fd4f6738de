// Tables of refusals: rows, outcomes, and what it means that refusals are exact. There is no function here: specs/ has the definitions,
// proofs/ the laws that serve every call.
#![tactic(auto)]
