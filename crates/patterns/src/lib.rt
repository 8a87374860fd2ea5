// P1 to P14 are a theorem about the definitions of `rules`, in specs/: there is no code here.
#![tactic(auto)]
