// No code: the descent of the source in two coordinates, and that it is the one of four with two of them held at zero.
#![tactic(auto)]
