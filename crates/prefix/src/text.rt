ghost use Rattle.std.specs.Prelude.{Some};
ghost use Rattle.prefix.specs.Text.{cidr_text};

use crate::cidr::Prefix;
use std::fmt;
use std::net::Ipv4Addr;

// In CIDR notation, as 10.0.0.0/8.
impl fmt::Display for Prefix {
    ghost output = { λ p. Some (cidr_text p) };

    fn fmt<W: fmt::Write>(&self, f: &mut fmt::Formatter<W>) -> fmt::Result {
        let address = Ipv4Addr::from_bits(self.network);
        write!(f, "{address}/{}", self.len)
    }
}
