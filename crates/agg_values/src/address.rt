ghost use Rattle.std.specs.Prelude.{◌≡◌, ◌^◌, ◌<◌, ℕ, Some, IfSome, IfOk};
ghost use Rattle.std.specs.Net.Addr.{ipv6_segments};
ghost use Rattle.agg_values.specs.Address.{groups_of, address_text, shown_address};
ghost use Rattle.agg_values.specs.AddressGrammar.{IsAddressText, ip_groups};

use crate::{OutOfMemory, Text};
use std::alloc::Global;
use std::fmt;
use std::net::{IpAddr, Ipv6Addr};

/// An IPv6 address, by its number. An IPv4 address is the mapped one.
#[derive(Clone, Copy, Debug, PartialEq, Eq, Hash)]
pub struct Address(pub u128);

impl Address {
    /// Reads an IPv4 text, which stands for the mapped address, or an IPv6 text. None exactly where
    /// the text is neither.
    pub fn read(text: &Text) -> Option<Address>
        ensures read { IfSome result (λ address. IsAddressText text.now address.0) }
        ensures each { (address : ℕ)
            → IsAddressText text.now address → result ≡ Some (record { 0 = address }) }
    {
        read_address(text.as_str())
    }

    /// Writes the one text of an address that RFC 5952 recommends.
    pub fn write(&self, alloc: Global) -> Result<Text, OutOfMemory>
        ensures text { IfOk result (λ text. text ≡ address_text self.now.0) }
        ensures reads_back { IfOk result (λ text. IsAddressText text self.now.0) }
    {
        let text = ipv6_of(*self).to_string(alloc)?;
        Text::from_string(text)
    }
}

impl fmt::Display for Address {
    ghost output = { λ address. Some (address_text address.0) };

    fn fmt<W: fmt::Write>(&self, f: &mut fmt::Formatter<W>) -> fmt::Result {
        write!(f, "{}", ipv6_of(*self))
    }
}

fn ipv6_of(address: Address) -> Ipv6Addr
    ensures groups { ipv6_segments result ≡ groups_of address.0 }
    ensures fits { address.0 < 2 ^ 128 }
{
    Ipv6Addr::from_bits(address.0)
}

pub(crate) fn read_address(text: &str) -> Option<Address>
    ensures read { IfSome result (λ address. IsAddressText text.now address.0) }
    ensures each { (address : ℕ)
        → IsAddressText text.now address → result ≡ Some (record { 0 = address }) }
{
    match text.parse::<IpAddr>() {
        Ok(ip) => Some(Address(number_of(ip))),
        Err(_) => None,
    }
}

// The number of an address. An IPv4 address has that of the mapped one.
fn number_of(ip: IpAddr) -> u128
    ensures { groups_of result ≡ ip_groups ip }
{
    match ip {
        IpAddr::V4(ip) => ipv6_number(ip.to_ipv6_mapped()),
        IpAddr::V6(ip) => ipv6_number(ip),
    }
}

fn ipv6_number(ip: Ipv6Addr) -> u128
    ensures { groups_of result ≡ ipv6_segments ip }
{
    ip.to_bits()
}

/// Writes an address as it is shown: a mapped one as an IPv4 text.
pub(crate) fn shown_text(alloc: Global, address: Address) -> Result<Text, OutOfMemory>
    ensures { IfOk result (λ text. text ≡ shown_address address.0) }
{
    let text = ipv6_of(address).to_canonical().to_string(alloc)?;
    Text::from_string(text)
}
