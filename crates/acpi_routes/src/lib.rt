//! Which interrupts the pins of PCI devices have (ACPI 6.5, 6.2.13): `_PRT`, whose packages a method may choose between.
//!
//! ```text
//! for routing in &routings_of(&machine)? { .. }
//! ```
#![tactic(auto)]

mod returned;
mod routes;
mod routings;

pub use routes::{Route, RouteSource, routes_in};
pub use routings::{RouteTable, Routing, RoutingForm, routings_of};
