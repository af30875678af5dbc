//! What a node knows of views: the lists that nodes bring to a view, the gathering of them, the install that is made of
//! it, and the node's own view and promise; with the definitions of what is made of them.
#![tactic(auto)]

mod answer;
mod carried;
mod copies;
mod exchange;
mod install;
mod names;
mod packet;
mod sides;
mod views;

pub use answer::Answer;
pub use carried::MAX_PARTS;
pub use exchange::Exchange;
pub use install::{Base, Install, Part, Parts, Source, Sources};
pub use names::{is_after, is_less};
pub use packet::{ViewPacket, ViewSend, ViewSends};
pub use sides::{Kept, KeptParts, Side, Sides};
pub use views::{RingAsk, ViewWork, Views};
