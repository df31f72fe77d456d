// How far one rounding moves a number, and how far an f64 is off what it stands for. Theorems only.
#![tactic(auto)]
