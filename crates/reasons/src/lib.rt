// Why a lot is refused, E3 of document 02, as definitions and theorems, in specs/ and proofs/: there is no code here.
#![tactic(auto)]
