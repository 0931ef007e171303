//! Tests of what no contract says of the workers of a run: what runs side by side, where a job is executed, what a gate is told.

mod executing;
mod gates;
mod hands;
mod seen;
