// Prefixes of IPv4 addresses: the bits that an address must begin with.
#![tactic(auto)]

mod cidr;
mod compare;
mod laws;
mod methods;
mod part;
mod shift;
mod text;

pub use cidr::{LENGTHS, Prefix};
pub use laws::{
    bits_are_all, bits_by_example, canonical_is_clean, numbers_are_bits, order_is_by_number,
    order_is_total,
};
pub use part::Parting;
