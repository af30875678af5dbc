//! One induction over runs: what holds of each packet that was sent, of the node of each number and of the history holds in every
//! scene, where a step keeps it. The laws that stand on it say these three things, and what a step does. No code is here.
#![tactic(auto)]
