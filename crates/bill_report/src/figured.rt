// The figures of a bill.
ghost use Rattle.std.specs.Prelude.{◌≡◌, vec_len};

use bill_rules::Remainders;

// A charge, a station charge and a credit for each customer, and what the bill leaves beside them.
#[derive(Drop)]
pub(crate) struct Figured {
    pub(crate) charges: Vec<u64>,
    pub(crate) stations: Vec<u64>,
    pub(crate) credits: Vec<u64>,
    pub(crate) remainders: Remainders,
    ghost stations_fit: { vec_len stations ≡ vec_len charges },
    ghost credits_fit: { vec_len credits ≡ vec_len charges },
}
