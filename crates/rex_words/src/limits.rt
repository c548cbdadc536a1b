//! How many events lanes that record by lock words have.

use rex_event::LANES;
use rex_syntax::service::STEPS;

/// The most events of a lane: there is room for so many.
pub const LANE_EVENTS: usize = 1_000_000;

/// The most events of an idle lane that begins another request: its begin and its handler's steps have room behind them.
pub const IDLE_EVENTS: usize = LANE_EVENTS - STEPS as usize - 1;

/// The most events of all lanes but one.
pub const OTHER_EVENTS: usize = (LANES - 1) * LANE_EVENTS;

/// The most events of all lanes.
pub const ALL_EVENTS: usize = LANES * LANE_EVENTS;
