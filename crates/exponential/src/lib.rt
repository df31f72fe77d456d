// How far the exponential's steps are from its power series, near zero. Theorems only.
#![tactic(auto)]
