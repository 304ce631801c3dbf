//! Tunnels: packets of IP that packets of IP carry.

ghost use Rattle.std.specs.Prelude.{◌≡◌, ◌+◌, ◌<◌, ◌≤◌, ◌^◌, length};
ghost use Rattle.cqlp_tcp_segment.specs.EtherType.{view as packet_view};
ghost use Rattle.cqlp_tcp_segment.specs.Fields.{Gives};
ghost use Rattle.cqlp_tcp_segment.specs.Ip.{view};
ghost use Rattle.cqlp_tcp_segment.specs.Tunnels.{ends_before, field_length, gre_header, in_gre, in_packet, in_vxlan, innermost};

use crate::ether_type::{IpPacket, IpVersion, after_ether_type};
use crate::fields::number_16;
use crate::ip::{Carried, carried_by};
use crate::link::after_type;
use crate::reason::NoSegment;

/// How many packets of IP are read at most, each in the one before: a packet and four tunnels.
const MOST_PACKETS: usize = 5;

/// The number of TCP among the protocols that IP carries.
const TCP: u8 = 6;

/// The EtherType of a frame of Ethernet in a tunnel.
const ETHERNET_FRAME: u16 = 0x6558;

/// The port of UDP to which packets of VXLAN are sent.
const VXLAN_PORT: u16 = 4789;

/// What the innermost packet of IP carries, which is TCP, of a packet that had this many bytes beyond those that were captured.
#[inline]
pub(crate) fn innermost(ip: IpPacket<'_>, beyond: usize) -> Result<Carried<'_>, NoSegment>
    requires { length ip.bytes.now + beyond < 2 ^ 64 }
    ensures { Gives view result (innermost 5 beyond (ip.entry.version, ip.entry.bytes.now)) }
{
    let mut ip = ip;
    let mut left = MOST_PACKETS;
    while left > 0 {
        let carried = carried_by(ip, beyond)?;
        if carried.protocol == TCP {
            return Ok(carried);
        }
        ip = in_packet(&carried)?;
        left -= 1;
    }
    Err(NoSegment::TooManyTunnels)
}

/// The packet of IP in a tunnel.
fn in_packet<'a>(carried: &Carried<'a>) -> Result<IpPacket<'a>, NoSegment>
    ensures { Gives packet_view result (in_packet (view carried.now)) }
{
    match carried.protocol {
        4 => Ok(IpPacket {
            version: IpVersion::V4,
            bytes: carried.bytes,
        }),
        41 => Ok(IpPacket {
            version: IpVersion::V6,
            bytes: carried.bytes,
        }),
        17 => in_vxlan(carried),
        47 => in_gre(carried),
        _ => Err(NoSegment::NotTcp),
    }
}

/// The packet of IP in a tunnel of GRE. RFC 2784, section 2.1, and RFC 2890, section 2.
#[tactic(auto, unfolding(crate::specs::Tunnels::in_gre))]
fn in_gre<'a>(carried: &Carried<'a>) -> Result<IpPacket<'a>, NoSegment>
    ensures { Gives packet_view result (in_gre (view carried.now)) }
{
    if ends_before(carried, 4) {
        return Err(NoSegment::CutInTunnel);
    }
    let flags = carried.bytes[0];
    if flags & 0x40 != 0 || carried.bytes[1] % 8 != 0 {
        return Err(NoSegment::NotTcp);
    }
    let header = gre_header(flags);
    if ends_before(carried, header) {
        return Err(NoSegment::CutInTunnel);
    }
    let (_, rest) = carried.bytes.split_at(header);
    match number_16(carried.bytes, 2) {
        ETHERNET_FRAME => after_type(rest, 12, 14),
        ether_type => after_ether_type(ether_type, rest),
    }
}

/// How many bytes the header of GRE has with these flags.
fn gre_header(flags: u8) -> usize
    ensures value { result ≡ gre_header flags }
    ensures least { 4 ≤ result }
{
    4 + field_length(flags, 0x80) + field_length(flags, 0x20) + field_length(flags, 0x10)
}

/// How many bytes the field of this flag has.
fn field_length(flags: u8, flag: u8) -> usize
    ensures value { result ≡ field_length flag flags }
    ensures most { result ≤ 4 }
{
    if flags & flag == 0 { 0 } else { 4 }
}

/// The packet of IP in the frame of Ethernet in a tunnel of VXLAN. RFC 7348, section 5.
#[tactic(auto, unfolding(crate::specs::Tunnels::in_vxlan))]
fn in_vxlan<'a>(carried: &Carried<'a>) -> Result<IpPacket<'a>, NoSegment>
    ensures { Gives packet_view result (in_vxlan (view carried.now)) }
{
    if ends_before(carried, 4) || number_16(carried.bytes, 2) != VXLAN_PORT {
        return Err(NoSegment::NotTcp);
    }
    if ends_before(carried, 16) {
        return Err(NoSegment::CutInTunnel);
    }
    if carried.bytes[8] & 0x08 == 0 {
        return Err(NoSegment::NotTcp);
    }
    after_type(&carried.bytes[16..], 12, 14)
}

/// Whether what IP carries, or what was captured of it, has less than this many bytes.
fn ends_before(carried: &Carried<'_>, count: usize) -> bool
    ensures { result ≡ ends_before count (view carried.now) }
{
    carried.size < count || carried.bytes.len() < count
}
