//! What a transcript is judged by: the table of rules, and the verdict.
#![tactic(auto)]

mod asked;
mod based;
mod broken;
mod casts;
mod closing;
mod entering;
mod first_lines;
mod groups;
pub mod judged_providers;
pub mod judged_puts;
pub mod judged_starts;
pub mod judged_views;
pub mod judged_words;
mod keys;
mod leavers;
mod lists;
mod opened;
mod openings;
mod passing;
mod places;
mod requests;
mod rings;
mod starts;
mod states;
mod stays;
mod views;
pub mod worked;

pub use asked::{Asked, AskedKey, kind_number};
pub use based::{Based, FirstBases, OwnBases, bases_fault};
pub use broken::{Fault, Judged, Rule, Verdict};
pub use casts::{Casts, FirstCast, closed_in};
pub use closing::{fits_fault, is_same_provider, tally_fault};
pub use entering::{in_fault, is_less, is_member};
pub use first_lines::FirstLines;
pub use groups::GroupLists;
pub use keys::{
    CastKey, PassKey, ProviderKey, RequestKey, StayKey, ViewKey, provider_key, stay_key, view_key,
};
pub use leavers::{Entrant, Leavers};
pub use lists::{LastPut, ListKey, RowKey, Rows, is_at, list_key, row_key};
pub use opened::{HeardOpen, cast_fault};
pub use openings::{OpenPut, Opening, Openings, opening_line};
pub use passing::{PutGroups, pass_fault};
pub use places::{FirstPut, PlaceKey, Places};
pub use requests::Requests;
pub use rings::{FirstRing, RingKey, Rings};
pub use starts::{Start, Starts};
pub use states::State;
pub use stays::Stays;
pub use views::{FirstIn, Views};
