// The definition of the coefficient sheet, in specs/, and what a line asks for, of which the definition speaks.
#![tactic(auto)]

// The coefficients of a variable up to an order, at a point or at the variable itself.
#[derive(Clone, Copy, Debug, PartialEq, Eq)]
pub struct Asked {
    pub var: u64,
    pub order: u64,
    pub point: Option<i64>,
}
