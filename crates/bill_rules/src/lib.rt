// The rules of a line's bill: specs/Bill.antt defines the bill, specs/Laws.antt what holds of it.
#![tactic(auto)]

// What a bill leaves beside its three columns, in cents: the costs less the charges of the cells
// that have units, the station charges less the credits, and the costs of cells without units.
#[derive(Clone, Copy, PartialEq, Eq, Debug)]
pub struct Remainders {
    pub short: i64,
    pub over: i64,
    pub stranded: i64,
}
