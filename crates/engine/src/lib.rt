// The engine's surface: what a host calls, from C or any language that can call C, as include/parvusek.h declares it.
// Every function is total: any slice, any number. engine_c exports them to C.
#![tactic(auto)]

mod answers;
pub mod cells;
pub mod files;
pub mod lifelines;
pub mod points;
pub mod rolls;
pub mod values;
pub mod version;

use outcome::Refusal;

// The answer of an enquiry: a value and a refusal of number 0, or a refusal and value 0.
#[repr(C)]
#[derive(Clone, Copy)]
pub struct CAnswer {
    pub refusal: Refusal,
    pub value: u64,
}

// The same where the value may be below zero.
#[repr(C)]
#[derive(Clone, Copy)]
pub struct CSignedAnswer {
    pub refusal: Refusal,
    pub value: i64,
}

// Where a lifeline stands after a start or a step, and whether it has ended (1).
#[repr(C)]
#[derive(Clone, Copy)]
pub struct CLifeline {
    pub refusal: Refusal,
    pub survivors: u64,
    pub age: u32,
    pub year: u32,
    pub ended: u32,
}
