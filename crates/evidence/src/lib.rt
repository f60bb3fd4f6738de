// Theorems of the whole: the known panels of document 01, what any run of calls keeps, and the customer's three demands. There is no
// function here: specs/ has the known cases, proofs/ the theorems, Demands.antt first of all.
#![tactic(auto)]
