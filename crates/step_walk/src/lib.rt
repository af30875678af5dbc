//! One walk through the step of a node: what each change of a step keeps, every rule keeps.
#![tactic(auto)]
