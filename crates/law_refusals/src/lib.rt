// When each call is refused: document 01's conditions, and that the lowest number whose condition holds is given. Laws only.
#![tactic(auto)]
