// The library that C links: each function that the crates whose names begin with capi export, under its own name and with its own clauses, called through.
// What each promises, and why, is told there.
#![tactic(auto)]

mod adding;
mod adding_in_blocks;
mod agreeing;
mod building;
mod chaining;
mod cleaning;
mod costing;
mod counting;
mod crossing;
mod going;
mod handing;
mod listing;
mod number;
mod ownership;
mod placing;
mod reading;
mod snapping;
mod standing;
mod starting;
mod summing;
mod visiting;
mod walking;
mod windowing;
