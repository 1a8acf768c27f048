//! One component's turn: begun, fetched by its pieces, and put together.
#![tactic(auto)]

mod component;
mod component_end;
mod judging;
mod lanes;
mod making;
mod pieces;
mod room;
mod settings;
mod stems;

pub use component::Component;
pub use component_end::ComponentEnd;
pub use making::make_component;
pub use settings::Settings;
