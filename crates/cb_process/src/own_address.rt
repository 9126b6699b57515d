//! Which addresses lead back to the node itself.
ghost use Rattle.std.specs.Prelude.{◌↔◌, IsTrue};
ghost use Rattle.cb_process.specs.OwnAddress.{IsOwn, LeadsTo, LeadsToV4, LeadsToV6};

use std::net::{IpAddr, Ipv4Addr, Ipv6Addr, SocketAddr};

/// Whether a dial of this address leads to who listens at the first one, on the same machine.
pub fn is_own(listens: SocketAddr, address: SocketAddr) -> bool
    ensures { IsTrue result ↔ IsOwn listens address }
{
    listens.port() == address.port() && leads_to(listens.ip(), address.ip())
}

/// Whether a dial of this host leads to who listens at the first one.
fn leads_to(listens: IpAddr, dialled: IpAddr) -> bool
    ensures { IsTrue result ↔ LeadsTo listens dialled }
{
    match (listens, dialled) {
        (IpAddr::V4(listens), IpAddr::V4(dialled)) => leads_to_v4(listens, dialled),
        (IpAddr::V6(listens), IpAddr::V6(dialled)) => leads_to_v6(listens, dialled),
        (IpAddr::V4(_), IpAddr::V6(_)) | (IpAddr::V6(_), IpAddr::V4(_)) => false,
    }
}

/// The same of IPv4.
fn leads_to_v4(listens: Ipv4Addr, dialled: Ipv4Addr) -> bool
    ensures { IsTrue result ↔ LeadsToV4 listens dialled }
{
    listens == dialled
        || (listens.is_unspecified() && dialled.is_loopback())
        || (listens.is_loopback() && dialled.is_unspecified())
}

/// The same of IPv6.
fn leads_to_v6(listens: Ipv6Addr, dialled: Ipv6Addr) -> bool
    ensures { IsTrue result ↔ LeadsToV6 listens dialled }
{
    listens == dialled
        || (listens.is_unspecified() && dialled.is_loopback())
        || (listens.is_loopback() && dialled.is_unspecified())
}
