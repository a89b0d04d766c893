//! Tests of the gate.

mod gate;
