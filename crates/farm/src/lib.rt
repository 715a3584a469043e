// Whole programs of decimal sums as a definition, and the theorem of what they conserve. There is no code here.
#![tactic(auto)]
