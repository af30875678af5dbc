//! The play of scripts: what happens in a world of nodes, the lines that become such events, and the records of these,
//! written in blocks.
#![tactic(auto)]

mod calls;
mod deliver;
mod event;
mod flow;
mod lifecycle;
mod lines;
mod loads;
mod nodes;
mod plain_events;
mod records;
mod rounds;
mod script;
mod stage;
mod start;
mod steps;
mod world;

pub use flow::FLOW_LIMIT;
pub use loads::load;
pub use nodes::Nodes;
pub use script::{play, play_as};
pub use stage::Stage;
pub use world::World;
