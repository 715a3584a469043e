// The data sheet's table as a definition, and the theorems that join it to the cycles. There is no code here.
#![tactic(auto)]
