// A roll of pensions in payment (02, change 6), in a list of 2,002 numbers that the host lends to every call. Any list is safe.
#![tactic(auto)]

pub mod calls;
mod changes;
mod joins;
mod kept;
