//! Headers of links, which are before the header of IP.

ghost use Rattle.std.specs.Prelude.{◌≡◌, ◌+◌, ◌≤◌};
ghost use Rattle.cqlp_tcp_segment.specs.EtherType.{view};
ghost use Rattle.cqlp_tcp_segment.specs.Fields.{Gives};
ghost use Rattle.cqlp_tcp_segment.specs.Link.{after_family, after_type, ip_packet, link_of, version_of_family};

use crate::ether_type::{IpPacket, IpVersion, after_ether_type, with_version};
use crate::fields::number_16;
use crate::reason::NoSegment;

/// What comes before the header of IP, as the registry of LINKTYPE_ values has it.
#[derive(Clone, Copy, Debug, PartialEq, Eq)]
pub enum LinkType {
    /// 0: BSD's loopback, whose family of addresses is in the order of the machine that captured.
    Null,
    /// 1: Ethernet, with any number of tags of virtual networks.
    Ethernet,
    /// 101, and 12 and 14, which BSDs write for it: the header of IP comes first, of either version.
    Raw,
    /// 108: OpenBSD's loopback, whose family of addresses has its highest byte first.
    Loop,
    /// 113: what Linux captures on all interfaces.
    LinuxSll,
    /// 228: the header of IPv4 comes first.
    Ipv4,
    /// 229: the header of IPv6 comes first.
    Ipv6,
    /// 276: what Linux captures on all interfaces, with the interface.
    LinuxSll2,
}

impl LinkType {
    /// The link type of this number; of any other, `UnknownLink`.
    ///
    /// # Errors
    ///
    /// `UnknownLink`, for any other number.
    #[inline]
    pub fn from_number(number: u16) -> Result<LinkType, NoSegment>
        ensures { result ≡ link_of number }
    {
        match number {
            0 => Ok(LinkType::Null),
            1 => Ok(LinkType::Ethernet),
            12 | 14 | 101 => Ok(LinkType::Raw),
            108 => Ok(LinkType::Loop),
            113 => Ok(LinkType::LinuxSll),
            228 => Ok(LinkType::Ipv4),
            229 => Ok(LinkType::Ipv6),
            276 => Ok(LinkType::LinuxSll2),
            _ => Err(NoSegment::UnknownLink),
        }
    }
}

/// The packet of IP in a captured packet.
#[tactic(auto, unfolding(crate::specs::Link::ip_packet))]
#[inline]
pub(crate) fn ip_packet(link: LinkType, packet: &[u8]) -> Result<IpPacket<'_>, NoSegment>
    ensures { Gives view result (ip_packet link packet.now) }
{
    match link {
        LinkType::Null => after_family(packet, true),
        LinkType::Loop => after_family(packet, false),
        LinkType::Ethernet => after_type(packet, 12, 14),
        LinkType::LinuxSll => after_type(packet, 14, 16),
        LinkType::LinuxSll2 => after_type(packet, 0, 20),
        LinkType::Raw => with_version(packet),
        LinkType::Ipv4 => Ok(IpPacket {
            version: IpVersion::V4,
            bytes: packet,
        }),
        LinkType::Ipv6 => Ok(IpPacket {
            version: IpVersion::V6,
            bytes: packet,
        }),
    }
}

/// What follows a family of addresses in four bytes, which may be in either order.
fn after_family(packet: &[u8], either: bool) -> Result<IpPacket<'_>, NoSegment>
    ensures { Gives view result (after_family either packet.now) }
{
    if packet.len() < 4 {
        return Err(NoSegment::CutInLink);
    }
    let family = [packet[0], packet[1], packet[2], packet[3]];
    let version = match version_of_family(u32::from_be_bytes(family)) {
        None if either => version_of_family(u32::from_le_bytes(family)),
        version => version,
    };
    match version {
        Some(version) => Ok(IpPacket {
            version,
            bytes: &packet[4..],
        }),
        None => Err(NoSegment::NotIp),
    }
}

/// The version of IP whose addresses are of this family: BSDs have three numbers for IPv6.
fn version_of_family(family: u32) -> Option<IpVersion>
    ensures { result ≡ version_of_family family }
{
    match family {
        2 => Some(IpVersion::V4),
        24 | 28 | 30 => Some(IpVersion::V6),
        _ => None,
    }
}

/// What follows a header of this many bytes, which has an EtherType at this index.
#[tactic(auto, unfolding(crate::specs::Link::after_type))]
#[inline]
pub(crate) fn after_type(
    packet: &[u8],
    index: usize,
    header: usize,
) -> Result<IpPacket<'_>, NoSegment>
    requires { index + 2 ≤ header }
    ensures { Gives view result (after_type index header packet.now) }
{
    if packet.len() < header {
        return Err(NoSegment::CutInLink);
    }
    let (_, bytes) = packet.split_at(header);
    after_ether_type(number_16(packet, index), bytes)
}
