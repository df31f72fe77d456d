// The power series of the exponential and its enclosure, in whole numbers. Theorems only.
#![tactic(auto)]
